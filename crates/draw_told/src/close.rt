ghost use Rattle.std.specs.Prelude.{◌≡◌, ◌≤◌, length};
ghost use Rattle.draw_told.specs.Closes.{allowed_in};

use history_model::{Event, Why};

/// How the events of a picture end.
#[derive(Clone, Copy, Debug)]
pub enum Close {
    /// They are a complete run.
    Ended,
    /// They are a run that has not ended.
    NotEnded,
    /// The last of them is not allowed after those before it, for this cause, of which a sentence
    /// tells.
    Refused { why: Why, sentence: &'static str },
}

/// The events that are allowed: all, or those before the last.
pub fn allowed_in(close: Close, events: &[Event]) -> &[Event]
    ensures value { result.now ≡ allowed_in close events.now }
    ensures few { length result.now ≤ length events.now }
{
    match close {
        Close::Ended | Close::NotEnded => events,
        Close::Refused { .. } => {
            let (allowed, _) = events.split_at(events.len().saturating_sub(1));
            allowed
        }
    }
}

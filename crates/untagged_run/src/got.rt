ghost use Rattle.std.specs.Prelude.{◌≡◌, slice_get};
ghost use Rattle.untagged_run.specs.Flat.{flat};

use board_model::Word;
use history_model::Why;

/// A read at a target: the number of its event, from 1 on, and the dword that it read.
#[derive(Clone, Copy, Debug)]
pub struct Got {
    pub event: u32,
    pub word: Word,
}

/// What these events are on bridges that keep no local master.
#[derive(Debug, Drop)]
pub enum Followed {
    /// No run: this event, from 1 on, is the first that is not allowed after those before it.
    NotRun { event: u32, why: Why },
    /// A run, and of each event what the read got that it ended at its master: none where it ended
    /// none, or where what it got was read at no target.
    Run { gots: Vec<Option<Got>> },
}

/// What the read got that the event at this place ended, if it ended one.
pub fn got_at(gots: &[Option<Got>], place: usize) -> Option<Got>
    ensures { result ≡ flat (slice_get gots.now place) }
{
    match gots.get(place) {
        Some(got) => *got,
        None => None,
    }
}

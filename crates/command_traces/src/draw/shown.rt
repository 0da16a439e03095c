ghost use Rattle.std.specs.Prelude.{◌≡◌, ◌<◌, ◌^◌, length, take, IfOk, IfErr};
ghost use Rattle.history_model.specs.Runs.{Run, history_of};
ghost use Rattle.judge_state.specs.Refused.{FirstRefused};
ghost use Rattle.draw_told.specs.Closes.{allowed_in};
ghost use Rattle.command_traces.specs.draw.Answers.{Shows};

use board_tree::Tree;
use draw_told::Close;
use history_model::{Event, Why};
use judge_check::{Verdict, check};
use law_bound::runs_end;
use program_pages::sentence_of;
use program_status::Status;
use std::alloc::Global;

/// What a picture shows of the events of a trace.
#[derive(Clone, Copy)]
pub(crate) struct Shown<'a> {
    /// All events of a run, or else those up to the first that is not allowed.
    pub(crate) events: &'a [Event],
    /// How they end.
    pub(crate) close: Close,
}

/// What is shown of these events.
pub(crate) fn shown_of<'a>(
    alloc: Global,
    tree: &Tree,
    events: &'a [Event],
) -> Result<Shown<'a>, Status>
    requires { length events.now < 2 ^ 32 }
    ensures shows { IfOk result (λ shown. Shows tree.now events.now shown.events.now shown.close) }
    ensures run { IfOk result (λ shown.
        Run tree.now (history_of (allowed_in shown.close shown.events.now))) }
    ensures few { IfOk result (λ shown. length shown.events.now < 2 ^ 31) }
    ensures err { IfErr result (λ status. status ≡ Status.NoMemory) }
{
    runs_end();
    let _valid = tree.board();
    match check(alloc, tree, events) {
        Ok(Verdict::Complete) => Ok(Shown {
            events,
            close: Close::Ended,
        }),
        Ok(Verdict::Incomplete { .. }) => Ok(Shown {
            events,
            close: Close::NotEnded,
        }),
        Ok(Verdict::NotRun { event, why }) => Ok(refused_at(tree, events, event, why)),
        Err(_) => Err(Status::NoMemory),
    }
}

/// Of events of which the one of this number is the first that is not allowed.
fn refused_at<'a>(tree: &Tree, events: &'a [Event], number: u32, why: Why) -> Shown<'a>
    requires { FirstRefused tree.now events.now number why }
    ensures shows { Shows tree.now events.now result.events.now result.close }
    ensures run { Run tree.now (history_of (allowed_in result.close result.events.now)) }
    ensures few { length result.events.now < 2 ^ 31 }
{
    runs_end();
    let _valid = tree.board();
    let shown = up_to(events, number);
    let sentence = sentence_of(why);
    Shown {
        events: shown,
        close: Close::Refused { why, sentence },
    }
}

/// The events up to this number.
fn up_to(events: &[Event], number: u32) -> &[Event]
    ensures { result.now ≡ take number events.now }
{
    let (shown, _) = events.split_at(events.len().min(number as usize));
    shown
}

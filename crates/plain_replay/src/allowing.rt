ghost use Rattle.std.specs.Prelude.{◌≡◌, ◌↔◌, IsTrue, IsOk, true};
ghost use Rattle.board_model.specs.WellFormed.{is_well_formed};
ghost use Rattle.history_model.specs.Answers.{wants, answer};
ghost use Rattle.history_model.specs.Runs.{Run, Allowed, history_of, next_mark};
ghost use Rattle.machine_steps.specs.Whys.{IsNotPresented, IsAnsweredOtherwise, IsRetried};
ghost use Rattle.machine_steps.specs.Whys.{HasNothingInFlight, IsMarkedOtherwise};
ghost use Rattle.machine_steps.specs.Verdicts.{cause_in, HoldsOfAct, HoldsOfArrival};

use crate::answers::answer;
use crate::arrivals::next_mark;
use crate::presenting::wants;
use board_model::{Board, Place};
use history_model::{Event, Step, Why};
use machine_steps::{Presented, answer_allows, arrival_allowed};

/// Whether the event is allowed after these, the first event first, which are a run of the board.
pub fn allowed(board: &Board, before: &[Event], event: &Event) -> Result<(), Why>
    requires formed { IsTrue (is_well_formed board.now) }
    requires run { Run board.now (history_of before.now) }
    ensures ok { IsOk result ↔ Allowed board.now (history_of before.now) event.now }
    ensures not_presented { (result ≡ Err Why.NotPresented) ↔
        IsNotPresented board.now (history_of before.now) event.now }
    ensures answered_otherwise { (result ≡ Err Why.AnsweredOtherwise) ↔
        IsAnsweredOtherwise board.now (history_of before.now) event.now }
    ensures retried { (result ≡ Err Why.GetsRetry) ↔
        IsRetried board.now (history_of before.now) event.now }
    ensures nothing_in_flight { (result ≡ Err Why.NothingInFlight) ↔
        HasNothingInFlight board.now (history_of before.now) event.now }
    ensures marked_otherwise { (result ≡ Err Why.MarkedOtherwise) ↔
        IsMarkedOtherwise board.now (history_of before.now) event.now }
{
    match *event {
        Event::Act {
            bus,
            by,
            op,
            step,
            place,
        } => act_allowed(board, before, Presented { bus, by, op }, step, place),
        Event::Arrive { lane, mark } => arrival_allowed(next_mark(board, before, lane), mark),
    }
}

fn act_allowed(
    board: &Board,
    before: &[Event],
    presented: Presented,
    step: Step,
    place: Place,
) -> Result<(), Why>
    requires formed { IsTrue (is_well_formed board.now) }
    requires run { Run board.now (history_of before.now) }
    ensures { let h = history_of before.now in
        HoldsOfAct (wants board.now h presented.bus presented.by presented.op)
        (answer board.now h presented.bus presented.by presented.op) step place (cause_in result) }
{
    if wants(board, before, presented) {
        answer_allows(answer(board, before, presented), step, place)
    } else {
        Err(Why::NotPresented)
    }
}

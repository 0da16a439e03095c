ghost use Rattle.std.specs.Prelude.{◌≡◌, ◌≤◌, ◌&&◌, ℕ, length, take};
ghost use Rattle.pci_command.specs.Command.{space_of};
ghost use Rattle.board_model.specs.Requests.{request_of};
ghost use Rattle.board_model.specs.Ways.{address_in};
ghost use Rattle.history_model.specs.Runs.{history_of};
ghost use Rattle.history_model.specs.Program.{ended, ending_of, master_outcome};
ghost use Rattle.history_model.specs.Knowledge.{reading_in, reading_of, up_to_end};
ghost use Rattle.machine_steps.specs.Endings.{ended_op};
ghost use Rattle.plain_audit.specs.Places.{dword, last_shown, shown_after, ended_with_value, is_op};

use crate::landings::first_shown;
use crate::places::Places;
use board_model::{Board, Place, request_of};
use history_model::{By, Event, Step};
use machine_steps::{ended_op, word_read};
use pci_command::{OpId, Outcome, same_op};

/// What the operation last read at a target in these events, the first event first: of the writes
/// that it saw there, the first that is the write or was told of it.
pub(crate) fn last_shown(board: &Board, events: &[Event], op: OpId, places: &Places) -> Option<OpId>
    ensures { result ≡
        last_shown board.now places.now.write places.now.since (history_of events.now) op }
{
    let mut shown = None;
    for (index, event) in events.iter().enumerate() {
        shown = shown_after(board, &events[..index], event, op, places, shown);
    }
    shown
}

/// The same after one more event.
fn shown_after(
    board: &Board,
    done: &[Event],
    event: &Event,
    op: OpId,
    places: &Places,
    shown: Option<OpId>,
) -> Option<OpId>
    ensures { result ≡ shown_after board.now places.now.write places.now.since shown
        (reading_in board.now (history_of done.now) op event.now) }
{
    match *event {
        Event::Act {
            bus,
            op: of,
            step: Step::Read(_),
            place: Place::Target(target),
            ..
        } if same_op(of, op) => match request_of(board, of, bus) {
            None => shown,
            Some(request) => first_shown(board, done, word_read(&request, target), places),
        },
        Event::Act { .. } | Event::Arrive { .. } => shown,
    }
}

/// How many of these events there are up to and with the last that ended the operation with a
/// value; 0 where none did.
pub(crate) fn count_to_end(events: &[Event], op: OpId) -> usize
    ensures within { result ≤ length events.now }
    ensures end { history_of (take result events.now) ≡ up_to_end op (history_of events.now) }
{
    let mut count = 0;
    for (index, event) in events.iter().enumerate() {
        if ends_with_value_of(event, op) {
            count = index + 1;
        }
    }
    count
}

/// Whether the event ends this operation with a value.
fn ends_with_value_of(event: &Event, op: OpId) -> bool
    ensures { result ≡
        (is_op op (ended_op (ended event.now)) && ended_with_value (ended event.now)) }
{
    match ended_op(event) {
        Some(ended) => same_op(ended, op) && ends_with_value(event),
        None => false,
    }
}

/// Whether it ends it with a value.
pub(crate) fn ends_with_value(event: &Event) -> bool
    ensures { result ≡ ended_with_value (ended event.now) }
{
    match *event {
        Event::Act {
            by: By::Master,
            op,
            step,
            ..
        } => gives_value(op, step),
        Event::Act { .. } | Event::Arrive { .. } => false,
    }
}

fn gives_value(op: OpId, step: Step) -> bool
    ensures { result ≡ ended_with_value (ending_of op (master_outcome step)) }
{
    match step {
        Step::Read(_) | Step::Take(Outcome::Value(_)) => true,
        Step::Part(_)
        | Step::Latch
        | Step::Stall
        | Step::Land
        | Step::Accept
        | Step::Take(_)
        | Step::MasterAbort
        | Step::TargetAbort => false,
    }
}

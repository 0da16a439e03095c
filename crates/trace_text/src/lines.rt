ghost use Rattle.std.specs.Prelude.{◌≡◌, is_some};
ghost use Rattle.board_model.specs.Requests.{op_of};
ghost use Rattle.trace_text.specs.Events.{has_initiator, has_place};
ghost use Rattle.trace_text.specs.Events.{is_completion, is_step_at, has_line};

use board_model::{Board, Place, has_bridge_to, is_bus, op_of};
use history_model::{By, Event, Step};
use pci_command::Outcome;

/// Whether the event has a line over the board: all that it names is there, and its step is one of
/// its place.
pub fn has_line(board: &Board, event: &Event) -> bool
    ensures { result ≡ has_line board.now event.now }
{
    match event {
        Event::Act {
            bus,
            by,
            op,
            step,
            place,
        } => {
            is_bus(board, *bus)
                && has_initiator(board, *by)
                && op_of(board, *op).is_some()
                && has_place(board, *place)
                && is_step_at(*step, *place)
        }
        Event::Arrive { lane, mark: _ } => has_bridge_to(board, lane.bus),
    }
}

fn has_initiator(board: &Board, by: By) -> bool
    ensures { result ≡ has_initiator board.now by }
{
    match by {
        By::Master => true,
        By::Lane(lane) => has_bridge_to(board, lane.bus),
    }
}

fn has_place(board: &Board, place: Place) -> bool
    ensures { result ≡ has_place board.now place }
{
    match place {
        Place::Target(index) => usize::from(index) < board.targets.as_slice().len(),
        Place::Header(bus) => has_bridge_to(board, bus),
        Place::Lane(lane) => has_bridge_to(board, lane.bus),
        Place::Nobody => true,
    }
}

fn is_completion(outcome: Outcome) -> bool
    ensures { result ≡ is_completion outcome }
{
    match outcome {
        Outcome::Value(_) | Outcome::Written | Outcome::Aborted => true,
        Outcome::Nobody => false,
    }
}

fn is_step_at(step: Step, place: Place) -> bool
    ensures { result ≡ is_step_at step place }
{
    match (step, place) {
        (Step::Land | Step::Read(_) | Step::Stall | Step::TargetAbort, Place::Target(_)) => true,
        (Step::Part(phases), Place::Target(_)) => 1 <= phases && phases <= 8,
        (Step::Read(_), Place::Header(_)) => true,
        (Step::Accept | Step::Latch, Place::Lane(_)) => true,
        (Step::Take(outcome), Place::Lane(_)) => is_completion(outcome),
        (Step::MasterAbort, Place::Nobody) => true,
        _ => false,
    }
}

ghost use Rattle.std.specs.Prelude.{◌≡◌};
ghost use Rattle.history_model.specs.Program.{ended, ending_of, master_outcome};
ghost use Rattle.history_model.specs.World.{lane_outcome, unclaimed, mode_of};
ghost use Rattle.machine_steps.specs.Endings.{ended_op};

use crate::presented::reads;
use board_model::{Board, Lane, bridge_to};
use history_model::{By, Event, Step};
use pci_command::{OpId, Outcome};

/// How a step ends the operation of a master that presented it, if it does.
pub fn master_outcome(step: Step) -> Option<Outcome>
    ensures { result ≡ master_outcome step }
{
    match step {
        Step::Land | Step::Accept => Some(Outcome::Written),
        Step::Read(value) => Some(Outcome::Value(value)),
        Step::Take(outcome) => Some(outcome),
        Step::MasterAbort => Some(Outcome::Nobody),
        Step::TargetAbort => Some(Outcome::Aborted),
        Step::Part(_) | Step::Latch | Step::Stall => None,
    }
}

/// How a step ends the item of a lane that presented it, if it does.
pub fn lane_outcome(board: &Board, lane: Lane, op: OpId, step: Step) -> Option<Outcome>
    ensures { result ≡ lane_outcome board.now lane op step }
{
    match step {
        Step::Land | Step::Accept => Some(Outcome::Written),
        Step::Read(value) => Some(Outcome::Value(value)),
        Step::Take(outcome) => Some(outcome),
        Step::MasterAbort => Some(unclaimed(mode_of(board, lane.bus), reads(board, op))),
        Step::TargetAbort => Some(Outcome::Aborted),
        Step::Part(_) | Step::Latch | Step::Stall => None,
    }
}

/// How a bridge ends a delayed request that nobody claimed, by its master abort mode.
pub fn unclaimed(mode: bool, reads: bool) -> Outcome
    ensures { result ≡ unclaimed mode reads }
{
    if mode {
        Outcome::Aborted
    } else if reads {
        Outcome::Value(0xffff_ffff)
    } else {
        Outcome::Written
    }
}

/// The master abort mode of the bridge to the bus.
pub fn mode_of(board: &Board, bus: u8) -> bool
    ensures { result ≡ mode_of board.now bus }
{
    match bridge_to(board, bus) {
        Some(bridge) => bridge.mode,
        None => false,
    }
}

/// The operation that the event ends at its master, if it ends one.
pub fn ended_op(event: &Event) -> Option<OpId>
    ensures { result ≡ ended_op (ended event.now) }
{
    match *event {
        Event::Act {
            by: By::Master,
            op,
            step,
            ..
        } => op_ended_by(op, step),
        Event::Act { .. } | Event::Arrive { .. } => None,
    }
}

fn op_ended_by(op: OpId, step: Step) -> Option<OpId>
    ensures { result ≡ ended_op (ending_of op (master_outcome step)) }
{
    match step {
        Step::Part(_) | Step::Latch | Step::Stall => None,
        Step::Land
        | Step::Read(_)
        | Step::Accept
        | Step::Take(_)
        | Step::MasterAbort
        | Step::TargetAbort => Some(op),
    }
}

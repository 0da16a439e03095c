ghost use Rattle.std.specs.Prelude.{◌≡◌, IsTrue, slice_get, true};
ghost use Rattle.board_model.specs.WellFormed.{is_well_formed};
ghost use Rattle.history_model.specs.World.{world_of};
ghost use Rattle.history_model.specs.Program.{turn_of};
ghost use Rattle.history_model.specs.Answers.{wants, wants_in, is_on, is_turn, presents};
ghost use Rattle.history_model.specs.Answers.{presents_by};
ghost use Rattle.history_model.specs.Runs.{Run, history_of};

use crate::lanes::lanes_after_events;
use crate::turns::turn_of;
use board_model::{Board, Lane, end_of};
use history_model::{By, Event, Rule};
use machine_steps::{Presented, is_on, may_go};
use pci_command::{OpId, same_op};

/// Whether the initiator presents the operation on the bus after these events, the first event
/// first.
pub fn wants(board: &Board, before: &[Event], presented: Presented) -> bool
    requires formed { IsTrue (is_well_formed board.now) }
    requires run { Run board.now (history_of before.now) }
    ensures { result ≡
        wants board.now (history_of before.now) presented.bus presented.by presented.op }
{
    let Presented { bus, by, op } = presented;
    match by {
        By::Master => is_on(board, bus, op.master) && is_turn(board, before, op),
        By::Lane(lane) => end_of(board, lane) == bus && presents(board, before, lane, bus, op),
    }
}

/// Whether the operation is its master's turn.
fn is_turn(board: &Board, before: &[Event], op: OpId) -> bool
    requires { IsTrue (is_well_formed board.now) }
    ensures { result ≡ is_turn op (turn_of board.now (history_of before.now) op.master) }
{
    match turn_of(board, before, op.master) {
        Some(turn) => same_op(turn, op),
        None => false,
    }
}

/// Whether a lane presents what stands on it of the operation.
fn presents(board: &Board, before: &[Event], lane: Lane, bus: u8, op: OpId) -> bool
    requires formed { IsTrue (is_well_formed board.now) }
    requires run { Run board.now (history_of before.now) }
    ensures { result ≡
        presents board.now bus op (world_of board.now (history_of before.now) lane).standing }
{
    let lanes = lanes_after_events(board, before, lane.bus);
    may_go(board, Rule::Tagged, bus, op, lanes.lane(lane.up).standing())
}

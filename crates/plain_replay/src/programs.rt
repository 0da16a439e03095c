ghost use Rattle.std.specs.Prelude.{◌≡◌, ◌+◌, ◌*◌, ◌-◌, ◌^◌, ◌<◌, ◌≤◌, drop};
ghost use Rattle.list_facts.specs.Lists.{total};
ghost use Rattle.board_model.specs.Requests.{op_of, tries_of};
ghost use Rattle.board_model.specs.Ways.{cost_of, cost_of_try};
ghost use Rattle.board_tree.specs.Decodable.{IsDecodable};
ghost use Rattle.history_model.specs.Program.{turn_of};
ghost use Rattle.history_model.specs.Runs.{history_of};
ghost use Rattle.history_model.specs.Left.{op_left, turn_left, program_left, programs_left};
ghost use Rattle.judge_lanes.specs.Running.{IsRunning};

use crate::turns::turn_of;
use crate::waiting::delayed_left;
use crate::words::through;
use board_model::{Board, Master, Op, is_posted, op_of, request_on};
use history_model::Event;
use judge_lanes::{behind_left, posted_left, tries_left};
use pci_command::OpId;

/// What the programs have left: the operation that is each master's turn, and those behind it.
pub(crate) fn programs_left(board: &Board, events: &[Event]) -> u64
    requires { IsRunning board.now (history_of events.now) }
    ensures value { result ≡ programs_left board.now (history_of events.now) 0 board.now.masters }
    ensures fits { result ≤ 2 ^ 62 }
{
    let mut left = 0;
    for (index, master) in board.masters.as_slice().iter().enumerate() {
        left += program_left(board, events, index as u16, master);
    }
    left
}

fn program_left(board: &Board, events: &[Event], index: u16, master: &Master) -> u64
    requires running { IsRunning board.now (history_of events.now) }
    requires short { total (cost_of board.now master.now.bus) master.now.ops ≤ 500000 }
    ensures value { result ≡ program_left board.now (history_of events.now) master.now
        (turn_of board.now (history_of events.now) index) }
    ensures fits { result ≤ 2 ^ 50 }
    ensures on_a_bus { master.now.bus < 256 }
{
    let bus = master.bus;
    match turn_of(board, events, index) {
        None => 0,
        Some(turn) => {
            turn_left(board, events, bus, turn)
                + behind_left(board, bus, master.ops.as_slice(), turn.index)
        }
    }
}

fn turn_left(board: &Board, events: &[Event], on: u8, op: OpId) -> u64
    requires { IsRunning board.now (history_of events.now) }
    ensures value { result ≡
        turn_left board.now (history_of events.now) on op (op_of board.now op) }
    ensures fits { result ≤ 2 ^ 49 }
{
    match op_of(board, op) {
        None => 0,
        Some(found) => op_left(board, events, on, op, found),
    }
}

/// A posted write in its pieces, or a delayed request where it got to and the tries behind it.
fn op_left(board: &Board, events: &[Event], on: u8, op: OpId, found: &Op) -> u64
    requires { IsRunning board.now (history_of events.now) }
    ensures value { result ≡ op_left board.now (history_of events.now) on op found.now }
    ensures fits { result ≤ 2 ^ 49 }
{
    if is_posted(&request_on(found, on)) {
        u64::from(posted_left(board, on, found, through(events, op)))
    } else {
        u64::from(delayed_left(board, events, on, op, found))
            + tries_left(board, on, op.attempt, found)
    }
}

ghost use Rattle.std.specs.Prelude.{◌≡◌, ◌+◌, ◌*◌, ◌^◌, ◌<◌, ◌≤◌};
ghost use Rattle.list_facts.specs.Lists.{total};
ghost use Rattle.board_model.specs.Requests.{op_of};
ghost use Rattle.board_model.specs.Ways.{cost_of};
ghost use Rattle.judge_state.specs.State.{turn_in};
ghost use Rattle.judge_check.specs.remaining.Now.{op_now, turn_now, program_now, programs_now};
ghost use Rattle.judge_check.specs.remaining.Running.{IsRunning};

use crate::remaining::carried::posted;
use crate::remaining::waiting::delayed_left;
use board_model::{Board, Master, Op, is_posted, op_of, request_on};
use judge_lanes::{behind_left, tries_left};
use judge_state::Kept;
use pci_command::OpId;

/// What the programs have left: the operation that is each master's turn, and those behind it.
pub(crate) fn programs_left(kept: &Kept, board: &Board) -> u64
    requires { IsRunning board.now kept.now }
    ensures value { result ≡ programs_now board.now kept.now 0 board.now.masters }
    ensures fits { result ≤ 2 ^ 62 }
{
    let mut left = 0;
    for (index, master) in board.masters.as_slice().iter().enumerate() {
        left += program_left(kept, board, index as u16, master);
    }
    left
}

fn program_left(kept: &Kept, board: &Board, index: u16, master: &Master) -> u64
    requires running { IsRunning board.now kept.now }
    requires short { total (cost_of board.now master.now.bus) master.now.ops ≤ 500000 }
    ensures value { result ≡
        program_now board.now kept.now master.now (turn_in kept.now.turns index) }
    ensures fits { result ≤ 2 ^ 50 }
    ensures on_a_bus { master.now.bus < 256 }
{
    let bus = master.bus;
    match kept.turn(index) {
        None => 0,
        Some(turn) => {
            turn_left(kept, board, bus, turn)
                + behind_left(board, bus, master.ops.as_slice(), turn.index)
        }
    }
}

fn turn_left(kept: &Kept, board: &Board, on: u8, op: OpId) -> u64
    requires { IsRunning board.now kept.now }
    ensures value { result ≡ turn_now board.now kept.now on op (op_of board.now op) }
    ensures fits { result ≤ 2 ^ 49 }
{
    match op_of(board, op) {
        None => 0,
        Some(found) => op_left(kept, board, on, op, found),
    }
}

/// A posted write in its pieces, or a delayed request where it got to and the tries behind it.
fn op_left(kept: &Kept, board: &Board, on: u8, op: OpId, found: &Op) -> u64
    requires { IsRunning board.now kept.now }
    ensures value { result ≡ op_now board.now kept.now on op found.now }
    ensures fits { result ≤ 2 ^ 49 }
{
    if is_posted(&request_on(found, on)) {
        u64::from(posted(kept, board, on, op, found))
    } else {
        u64::from(delayed_left(kept, board, on, op, found))
            + tries_left(board, on, op.attempt, found)
    }
}

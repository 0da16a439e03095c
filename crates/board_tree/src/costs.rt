ghost use Rattle.std.specs.Prelude.{◌≡◌, ◌<◌, ◌≤◌, ◌^◌, length};
ghost use Rattle.list_facts.specs.Lists.{total, greatest};
ghost use Rattle.board_model.specs.Ways.{way, cost_of, cost_of_try};
ghost use Rattle.board_tree.specs.Decodable.{IsDecodable};

use crate::bound;
use board_model::{Board, Master, Op};

/// What operations of a master on the bus cost.
pub fn cost_of_program(board: &Board, bus: u8, ops: &[Op]) -> u64
    requires decodable { IsDecodable board.now }
    requires fits { total (cost_of board.now bus) ops.now < 2 ^ 64 }
    ensures { result ≡ total (cost_of board.now bus) ops.now }
{
    bound::cost_of_program(board, None, bus, ops)
}

/// How many events one try of an operation costs at most, from the bus on.
pub fn cost_of_try(board: &Board, bus: u8, op: &Op) -> u32
    requires { IsDecodable board.now }
    ensures value { result ≡ cost_of_try board.now bus op.now }
    ensures fits { result ≤ 66300 }
{
    bound::cost_of_try(board, None, bus, op)
}

/// The greatest length of the way of an operation.
pub fn longest_way(board: &Board, masters: &[Master]) -> u8
    requires { IsDecodable board.now }
    ensures { result ≡
        greatest (λ master. greatest (λ op. length (way board.now op master.bus)) master.ops)
        masters.now }
{
    bound::longest_way(board, None, masters)
}

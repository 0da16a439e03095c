ghost use Rattle.std.specs.Prelude.{◌≡◌, ◌+◌, ◌<◌, ◌^◌, length};
ghost use Rattle.run_report.specs.Report.{operations_of};

use board_model::Board;

/// How many buses the board has: bus 0, and one below each bridge.
pub(crate) fn buses_of(board: &Board) -> usize
    ensures { result ≡ length board.now.bridges + 1 }
{
    board.bridges.as_slice().len() + 1
}

pub(crate) fn masters_of(board: &Board) -> usize
    ensures { result ≡ length board.now.masters }
{
    board.masters.as_slice().len()
}

/// How many operations all programs have, each poll counted once.
pub(crate) fn operations_of(board: &Board) -> u64
    requires { operations_of board.now < 2 ^ 32 }
    ensures { result ≡ operations_of board.now }
{
    let mut operations = 0;
    for master in board.masters.as_slice() {
        operations += master.ops.as_slice().len() as u64;
    }
    operations
}

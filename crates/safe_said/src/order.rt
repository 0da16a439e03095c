ghost use Rattle.std.specs.Prelude.{◌≡◌, ◌==◌, ◌&&◌, nat_lt};
ghost use Rattle.board_model.specs.declared.board.Board.{Board};
ghost use Rattle.law_lanes.specs.order.Order.{is_posted_op};
ghost use Rattle.safe_model.specs.Clocks.{behind};
ghost use Rattle.safe_model.specs.largest.Tests.{is_before, is_reached, lands_no_more};
ghost use Rattle.board_writes.specs.Rows.{table_of, KeepsPolls};

use board_model::{Board, Op, op_of};
use board_writes::ClockTable;
use pci_command::{Command, OpId};

/// Whether some run may come to the operation: it does not come before itself.
pub(crate) fn is_reached(table: &ClockTable, op: OpId) -> bool
    ensures { (board : Board) → KeepsPolls board table.now →
        result ≡ is_reached board (table_of table.now) op }
{
    !table.is_before(op, op)
}

/// Whether a write lands no more once the other does.
pub(crate) fn lands_no_more(board: &Board, table: &ClockTable, a: OpId, b: OpId) -> bool
    requires { KeepsPolls board.now table.now }
    ensures { result ≡ lands_no_more board.now (table_of table.now) a b }
{
    (is_posted(board, a) && table.is_before(a, b))
        || (stands_before(a, b) || has_ended(table, a, b))
}

/// Whether one operation stands before another in one program.
fn stands_before(a: OpId, b: OpId) -> bool
    ensures { result ≡ (a.master == b.master && nat_lt a.index b.index) }
{
    a.master == b.master && a.index < b.index
}

/// Whether the operation behind one comes before another.
fn has_ended(table: &ClockTable, a: OpId, b: OpId) -> bool
    ensures { (board : Board) → KeepsPolls board table.now →
        result ≡ is_before board (table_of table.now) (behind a) b }
{
    usize::from(a.index) + 1 < table.clock(b, a.master)
}

/// Whether it is a write in memory, which is posted.
fn is_posted(board: &Board, op: OpId) -> bool
    ensures { result ≡ is_posted_op board.now op }
{
    match op_of(board, op) {
        Some(Op::Read { command, .. } | Op::Write { command, .. }) => {
            command.plain().code() == Command::MemWrite.code()
        }
        _ => false,
    }
}

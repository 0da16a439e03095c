ghost use Rattle.std.specs.Prelude.{◌≡◌, map, true, IfOk};
ghost use Rattle.safe_model.specs.largest.Largest.{IsLargest};
ghost use Rattle.board_writes.specs.Rows.{table_of, KeepsPolls};
ghost use Rattle.board_writes.specs.Writes.{op_in};
ghost use Rattle.safe_said.specs.Landing.{AreChained, PutsAll, Sorts};
ghost use Rattle.board_writes.specs.Stretches.{joined};
ghost use Rattle.safe_said.specs.Landing.{is_chained, no_more_next};

use crate::order::lands_no_more;
use board_model::Board;
use board_writes::{ClockTable, WordWrite, WordWrites};
use pci_command::{NoMemory, OpId};
use std::alloc::Global;

/// The writes in the order in which they land: from the last run on, each is put among those behind
/// it, by one walk over both.
pub(crate) fn in_order(
    alloc: Global,
    board: &Board,
    table: &ClockTable,
    runs: &[WordWrites],
) -> Result<Vec<WordWrite>, NoMemory>
    requires polls { KeepsPolls board.now table.now }
    requires largest { IsLargest board.now (table_of table.now) }
    requires runs { AreChained board.now (table_of table.now) runs.now }
    ensures { IfOk result
        (λ list. Sorts board.now (table_of table.now) (joined runs.now) list.items) }
{
    let mut list = Vec::new(alloc);
    let count = runs.len();
    for behind in 0..count {
        let run = runs[count - 1 - behind].as_slice();
        list = merged(alloc, board, table, run, list.as_slice())?;
    }
    Ok(list)
}

/// The writes of a run put among others, each ahead of the first that it lands no more behind.
fn merged(
    alloc: Global,
    board: &Board,
    table: &ClockTable,
    run: &[WordWrite],
    list: &[WordWrite],
) -> Result<Vec<WordWrite>, NoMemory>
    requires polls { KeepsPolls board.now table.now }
    requires largest { IsLargest board.now (table_of table.now) }
    requires run { is_chained board.now (table_of table.now) (map op_in run.now) ≡ true }
    ensures { IfOk result
        (λ all. PutsAll board.now (table_of table.now) run.now list.now all.items) }
{
    let mut all = Vec::new(alloc);
    let mut ahead = run;
    let mut behind = list;
    while let [write, others @ ..] = ahead {
        if no_more_next(board, table, write.op, behind) {
            all.push(*write)?;
            ahead = others;
        } else if let [other, rest @ ..] = behind {
            all.push(*other)?;
            behind = rest;
        }
    }
    all.extend_from_slice(behind)?;
    Ok(all)
}

/// Whether each of them lands no more once the next one does.
pub(crate) fn is_chained(board: &Board, table: &ClockTable, list: &[WordWrite]) -> bool
    requires { KeepsPolls board.now table.now }
    ensures { result ≡ is_chained board.now (table_of table.now) (map op_in list.now) }
{
    let mut left = list;
    while let [first, behind @ ..] = left {
        if !no_more_next(board, table, first.op, behind) {
            return false;
        }
        left = behind;
    }
    true
}

fn no_more_next(board: &Board, table: &ClockTable, first: OpId, behind: &[WordWrite]) -> bool
    requires { KeepsPolls board.now table.now }
    ensures { result ≡ no_more_next board.now (table_of table.now) first (map op_in behind.now) }
{
    match behind {
        [next, ..] => lands_no_more(board, table, first, next.op),
        [] => true,
    }
}

ghost use Rattle.std.specs.Prelude.{◌≡◌, ◌<◌, ◌≤◌, length, map, take, true, IfOk};
ghost use Rattle.board_writes.specs.Rows.{table_of, KeepsPolls};
ghost use Rattle.board_writes.specs.Writes.{op_in};
ghost use Rattle.safe_said.specs.Landing.{is_chained};
ghost use Rattle.safe_said.specs.Landing.{AreRuns};

use crate::order::lands_no_more;
use board_model::Board;
use board_writes::{ClockTable, WordWrite, WordWrites};
use pci_command::NoMemory;
use std::alloc::Global;

/// The writes as runs, in each of which a write lands no more once the next one does. Those of one
/// master that stand one behind another are in one run.
pub(crate) fn runs_of(
    alloc: Global,
    board: &Board,
    table: &ClockTable,
    writes: &[WordWrite],
) -> Result<Vec<WordWrites>, NoMemory>
    requires { KeepsPolls board.now table.now }
    ensures { IfOk result
        (λ runs. AreRuns board.now (table_of table.now) writes.now runs.items) }
{
    let mut runs = Vec::new(alloc);
    let mut left = writes;
    while left.len() > 0 {
        let count = run_length(board, table, left);
        let (run, behind) = left.split_at(count);
        runs.push(copied(alloc, run)?)?;
        left = behind;
    }
    Ok(runs)
}

/// How many of the writes are in one run with the first.
fn run_length(board: &Board, table: &ClockTable, writes: &[WordWrite]) -> usize
    requires polls { KeepsPolls board.now table.now }
    requires some { 0 < length writes.now }
    ensures some { 0 < result }
    ensures within { result ≤ length writes.now }
    ensures run { is_chained board.now (table_of table.now) (map op_in (take result writes.now)) ≡
        true }
{
    let mut count = 1;
    while count < writes.len()
        && lands_no_more(board, table, writes[count - 1].op, writes[count].op)
    {
        count += 1;
    }
    count
}

fn copied(alloc: Global, writes: &[WordWrite]) -> Result<WordWrites, NoMemory>
    ensures { IfOk result (λ list. list ≡ writes.now) }
{
    let list = writes.iter().copied().collect(alloc)?;
    Ok(WordWrites::of(list))
}

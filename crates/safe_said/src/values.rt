ghost use Rattle.std.specs.Prelude.{◌≡◌, map, IfOk};
ghost use Rattle.std.specs.List.{AllByRecursion};
ghost use Rattle.safe_model.specs.largest.Largest.{IsLargest};
ghost use Rattle.safe_model.specs.said.Said.{in_order, left_by};
ghost use Rattle.audit_clocks.specs.Tables.{dword};
ghost use Rattle.board_writes.specs.Rows.{table_of, KeepsPolls};
ghost use Rattle.board_writes.specs.Writes.{op_in, IsWordWrite};
ghost use Rattle.safe_said.specs.Members.{AreLeft};

use crate::landing::in_order;
use crate::runs::runs_of;
use board_model::{Board, Word, merge};
use board_writes::{ClockTable, WordWrite};
use machine_steps::{mask_of, opens_as};
use pci_command::NoMemory;
use std::alloc::Global;

/// What these writes of the word leave in it, in the order in which they land.
pub(crate) fn value_of(
    alloc: Global,
    board: &Board,
    table: &ClockTable,
    word: Word,
    writes: &[WordWrite],
) -> Result<u32, NoMemory>
    requires polls { KeepsPolls board.now table.now }
    requires largest { IsLargest board.now (table_of table.now) }
    requires writes { AllByRecursion (IsWordWrite board.now (dword word)) writes.now }
    ensures { IfOk result (λ value. value ≡ left_by board.now (dword word) (in_order board.now
        (table_of table.now) (map op_in writes.now))) }
{
    let runs = runs_of(alloc, board, table, writes)?;
    let list = in_order(alloc, board, table, runs.as_slice())?;
    Ok(left_by(board, word, list.as_slice()))
}

/// What these writes of the word leave in it, one after another.
pub(crate) fn left_by(board: &Board, word: Word, writes: &[WordWrite]) -> u32
    requires { AllByRecursion (IsWordWrite board.now (dword word)) writes.now }
    ensures { result ≡ left_by board.now (dword word) (map op_in writes.now) }
{
    let mask = mask_of(word.space, word.address);
    let mut value = opens_as(board, word.target, word.space, word.address);
    for write in writes {
        value = merge(value, &write.phase, mask);
    }
    value
}

/// What the first so many of these writes of the word leave in it.
pub(crate) fn all_left(
    alloc: Global,
    board: &Board,
    word: Word,
    writes: &[WordWrite],
) -> Result<Vec<u32>, NoMemory>
    requires { AllByRecursion (IsWordWrite board.now (dword word)) writes.now }
    ensures { IfOk result (λ values. AreLeft board.now (dword word) writes.now values.items) }
{
    let mask = mask_of(word.space, word.address);
    let mut value = opens_as(board, word.target, word.space, word.address);
    let mut values = Vec::new(alloc);
    values.push(value)?;
    for write in writes {
        value = merge(value, &write.phase, mask);
        values.push(value)?;
    }
    Ok(values)
}

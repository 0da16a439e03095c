ghost use Rattle.std.specs.Prelude.{◌≡◌, IfOk};
ghost use Rattle.board_model.specs.Valid.{IsValid};
ghost use Rattle.board_writes.specs.Rows.{everything, is_tried, row_behind, Started, Starts};

use crate::program::Program;
use crate::row::Row;
use board_model::{Board, Op, tries_of};
use pci_command::NoMemory;
use std::alloc::Global;

/// What is kept of each program, where everything is known behind each poll.
#[tactic(auto, using(crate::proofs::StartLemmas::of_programs))]
pub(crate) fn start_all(alloc: Global, board: &Board) -> Result<Vec<Program>, NoMemory>
    requires { IsValid board.now }
    ensures { IfOk result (λ programs. Starts board.now programs.items) }
{
    let all = everything(alloc, board)?;
    let mut programs = Vec::new(alloc);
    for (_number, master) in board.masters.as_slice().iter().enumerate() {
        programs.push(start_of(alloc, &all, master.ops.as_slice())?)?;
    }
    Ok(programs)
}

/// How many operations the program of each master has.
#[tactic(auto, using(crate::proofs::StartLemmas::of_counts))]
fn everything(alloc: Global, board: &Board) -> Result<Row, NoMemory>
    requires { IsValid board.now }
    ensures { IfOk result (λ row. row ≡ everything board.now) }
{
    let mut numbers = Vec::new(alloc);
    for master in board.masters.as_slice() {
        let count = master.ops.as_slice().len();
        numbers.push(count as u16)?;
    }
    Ok(Row::of(numbers))
}

/// What is kept of a program.
#[tactic(auto, using(crate::proofs::StartLemmas::of_program))]
fn start_of(alloc: Global, all: &Row, ops: &[Op]) -> Result<Program, NoMemory>
    ensures { IfOk result (Started all.now ops.now) }
{
    let mut rows = Vec::new(alloc);
    let mut lasts = Vec::new(alloc);
    let mut end = 0;
    for (place, op) in ops.iter().enumerate() {
        let is_poll = is_tried(op);
        rows.push(row_behind(alloc, all, is_poll)?)?;
        lasts.push(end)?;
        end = if is_poll { place + 1 } else { end };
    }
    Ok(Program { rows, lasts, end })
}

/// Everything is known behind a poll; of another operation nothing is kept.
fn row_behind(alloc: Global, all: &Row, is_poll: bool) -> Result<Row, NoMemory>
    ensures { IfOk result (λ row. row ≡ row_behind all.now is_poll) }
{
    if is_poll {
        all.copied(alloc)
    } else {
        Ok(Row::empty(alloc))
    }
}

/// Whether it is a poll, which is tried at least once.
pub(crate) fn is_tried(op: &Op) -> bool
    ensures { result ≡ is_tried op.now }
{
    tries_of(op) > 0 && matches!(op, Op::Poll { .. })
}

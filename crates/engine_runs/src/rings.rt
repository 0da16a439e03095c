//! A whole run of a board, each bus worked by a thread of its own, and what holds of every run.
ghost use Rattle.std.specs.Prelude.{IfOk};
ghost use Rattle.judge_check.specs.Verdicts.{CompleteRun};

use crate::threads::run_rings;
pub use crate::threads::{Gate, NoGate};
use board_tree::Tree;
use history_model::Event;
use law_delivered::laws_of_runs;
use pci_command::{List, NoMemory};
use std::alloc::Global;
use std::thread::Threads;

/// A complete run of the board, the first event first: in each phase each bus does turns in a
/// thread of its own, and what it sends may come to other buses in the same phase. The gate is told
/// of the turns. Which complete run it is depends on how the threads run.
pub fn threaded_run<R: Threads + Sync, G: Gate + Sync>(
    rt: &R,
    alloc: Global,
    tree: &Tree,
    gate: &G,
) -> Result<List<Event>, NoMemory>
    ensures { IfOk result (CompleteRun tree.now) }
{
    laws_of_runs();
    // The board of a tree is valid, so that the laws speak of it.
    let _valid = tree.board();
    run_rings(rt, alloc, tree, gate)
}

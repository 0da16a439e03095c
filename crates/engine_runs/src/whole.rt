//! A whole run of a board, worked bus by bus and phase by phase, and what holds of every run.
ghost use Rattle.std.specs.Prelude.{IfOk};
ghost use Rattle.judge_check.specs.Verdicts.{CompleteRun};

use crate::run_steady;
use board_tree::Tree;
use history_model::Event;
use law_delivered::laws_of_runs;
use pci_command::{List, NoMemory};
use std::alloc::Global;

/// A complete run of the board, the first event first: in each phase each bus does one turn, and
/// what it sends comes to other buses in the next one.
pub fn steady_run(alloc: Global, tree: &Tree) -> Result<List<Event>, NoMemory>
    ensures { IfOk result (CompleteRun tree.now) }
{
    laws_of_runs();
    // The board of a tree is valid, so that the laws speak of it.
    let _valid = tree.board();
    run_steady(alloc, tree)
}

ghost use Rattle.std.specs.Prelude.{◌<◌, ◌^◌, List, [], length, IfOk};
ghost use Rattle.history_model.specs.declared.event.Event.{Event};
ghost use Rattle.history_model.specs.Runs.{history_of};
ghost use Rattle.judge_state.specs.Stands.{StandsFor, Stands};
ghost use Rattle.judge_check.specs.Verdicts.{Judges};

use crate::Verdict;
use crate::remaining::{is_complete, left};
use board_tree::Tree;
use history_model::Event;
use judge_state::{Kept, take_all};
use law_delivered::laws_of_runs;
use pci_command::NoMemory;
use std::alloc::Global;

/// What these events of a valid board are, the first event first. There are fewer than 2^32. Each
/// is looked at once, so that the time grows with their number.
pub fn check(alloc: Global, tree: &Tree, events: &[Event]) -> Result<Verdict, NoMemory>
    requires { length events.now < 2 ^ 32 }
    ensures { IfOk result (Judges tree.now events.now) }
{
    let mut kept = Kept::new(alloc, tree)?;
    Ok(judged(&mut kept, tree, events))
}

/// The verdict, by what is kept of a run without events.
fn judged(kept: &mut Kept, tree: &Tree, events: &[Event]) -> Verdict
    requires few { length events.now < 2 ^ 32 }
    requires start { StandsFor tree.now [] kept.old }
    ensures { Judges tree.now events.now result }
{
    match take_all(kept, tree, events) {
        Some((event, why)) => Verdict::NotRun { event, why },
        None => verdict_of_run(kept, tree),
    }
}

/// Of a run the verdict is whether it is complete, and what it has left.
fn verdict_of_run(kept: &Kept, tree: &Tree) -> Verdict
    requires { Stands tree.now kept.now }
    ensures { (events : List Event) → StandsFor tree.now (history_of events) kept.now →
        Judges tree.now events result }
{
    laws_of_runs();
    // The board of a tree is valid, so that all of this holds of its runs.
    let _valid = tree.board();
    if is_complete(kept, tree) {
        Verdict::Complete
    } else {
        Verdict::Incomplete {
            left: left(kept, tree),
        }
    }
}

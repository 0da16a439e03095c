//! Traces judged by the machine whose bridges keep no local master: whether the events are a run
//! there, and which of its reads come out stale. PCI-to-PCI Bridge Architecture Specification 1.1,
//! chapter 5, Delayed Transactions (from memory).
#![tactic(auto)]

ghost use Rattle.std.specs.Prelude.{◌<◌, ◌^◌, length, IfOk};
ghost use Rattle.untagged_check.specs.Judged.{JudgesUntagged};

mod index;
mod stale;
mod verdict;

use board_tree::Tree;
use history_model::Event;
use law_untagged::{
    apart_runs_are_alike, apart_runs_are_sound, stale_reads_are_listed, stale_reads_break_freshness,
};
use pci_command::{List, NoMemory};
use stale::stale_reads;
use std::alloc::Global;
use untagged_run::{Followed, follow};
pub use verdict::{Stale, Untagged};

/// What these events of a valid board are on bridges that keep no local master, the first event
/// first. There are fewer than 2^32. Whether they are a run takes one look at each, and the list
/// two more: an event takes a step for each master, and a read that ends a binary search for each
/// master that writes its dword.
pub fn check_untagged(alloc: Global, tree: &Tree, events: &[Event]) -> Result<Untagged, NoMemory>
    requires { length events.now < 2 ^ 32 }
    ensures { IfOk result (JudgesUntagged tree.now events.now) }
{
    apart_runs_are_alike();
    apart_runs_are_sound();
    stale_reads_break_freshness();
    stale_reads_are_listed();
    // The board of a tree is valid, so that all of this holds of its runs.
    let _valid = tree.board();
    match follow(alloc, tree, events)? {
        Followed::NotRun { event, why } => Ok(Untagged::NotRun { event, why }),
        Followed::Run { gots } => {
            let stale = stale_reads(alloc, tree, events, gots.as_slice())?;
            Ok(Untagged::Run {
                stale: List::from_vec(stale),
            })
        }
    }
}

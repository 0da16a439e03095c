//! Whether some run has the acts of events.
ghost use Rattle.std.specs.Prelude.{◌<◌, ◌^◌, length, IfOk};
ghost use Rattle.observe_order.specs.Judging.{JudgesActs};

use board_tree::Tree;
use history_model::{Event, Why};
use judge_fill::{Unfilled, fill};
use pci_command::NoMemory;
use std::alloc::Global;

/// Whether acts are those of a run.
#[derive(Clone, Copy, Debug, PartialEq, Eq)]
pub enum ActsVerdict {
    IsRun,
    /// The event of this number, from 1 on, is an act that is not allowed after those before it.
    Refused { event: u32, why: Why },
}

/// Whether some run has the acts of these events.
#[tactic(auto, using(crate::proofs::JudgingLemmas::fills_run, crate::proofs::JudgingLemmas::stops))]
pub fn verdict_of(alloc: Global, tree: &Tree, events: &[Event]) -> Result<ActsVerdict, NoMemory>
    requires { length events.now < 2 ^ 32 }
    ensures { IfOk result (JudgesActs tree.now events.now) }
{
    match fill(alloc, tree, events) {
        Ok(_whole) => Ok(ActsVerdict::IsRun),
        Err(Unfilled::NotRun { event, why }) => Ok(ActsVerdict::Refused { event, why }),
        Err(Unfilled::NoMemory) => Err(NoMemory),
    }
}

ghost use Rattle.std.specs.Prelude.{◌-◌, ◌<◌, ◌^◌};
ghost use Rattle.std.specs.Prelude.{[], length, take, IfOk, IfNone, IfSome, MatchOption};
ghost use Rattle.history_model.specs.Runs.{Run, history_of};
ghost use Rattle.judge_state.specs.Stands.{StandsFor};
ghost use Rattle.judge_state.specs.Refused.{RefusesFirst};

use crate::Kept;
use board_tree::Tree;
use history_model::{Event, Why};
use pci_command::NoMemory;
use std::alloc::Global;

/// The number, from 1 on, of the first event that is not allowed after those before it, and why, if
/// there is one. There are fewer than 2^32 events.
pub fn first_refused(
    alloc: Global,
    tree: &Tree,
    events: &[Event],
) -> Result<Option<(u32, Why)>, NoMemory>
    requires { length events.now < 2 ^ 32 }
    ensures { IfOk result (λ first. MatchOption first (Run tree.now (history_of events.now))
        (RefusesFirst tree.now events.now)) }
{
    let mut kept = Kept::new(alloc, tree)?;
    Ok(take_all(&mut kept, tree, events))
}

/// The events happen one after another to what is kept of a run without events, up to the first
/// that is not allowed: its number, from 1 on, and why; what is kept then stands for the run before
/// it. If there is none, all have happened. There are fewer than 2^32 events.
pub fn take_all(kept: &mut Kept, tree: &Tree, events: &[Event]) -> Option<(u32, Why)>
    requires few { length events.now < 2 ^ 32 }
    requires start { StandsFor tree.now [] kept.old }
    ensures run { IfNone result (StandsFor tree.now (history_of events.now) kept.new) }
    ensures refused { IfSome result (RefusesFirst tree.now events.now) }
    ensures stands { IfSome result (λ refused.
        StandsFor tree.now (history_of (take (refused.0 - 1) events.now)) kept.new) }
{
    for (index, event) in events.iter().enumerate() {
        if let Err(why) = kept.step(tree, event) {
            return Some((index as u32 + 1, why));
        }
    }
    None
}

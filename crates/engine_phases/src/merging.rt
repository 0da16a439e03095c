//! One history from what each bus did: the events of all buses in the order of their stamps, those
//! of equal stamps in the order of the buses. The law beside the call says that this keeps of each
//! bus what it did, so that it is a run of the board where each bus did a local run
//! (`sorted_parts_run` in `law_local`).
ghost use Rattle.std.specs.Prelude.{◌≡◌, ℕ, ◌++◌, List as Items, map, reverse, IfOk};
ghost use Rattle.board_model.specs.declared.board.Board.{Board};
ghost use Rattle.history_model.specs.declared.event.Stamped.{Stamped as StampedEvent};
ghost use Rattle.history_model.specs.Runs.{history_of};
ghost use Rattle.law_local.specs.Stamps.{events_of, IsMerged};
ghost use Rattle.engine_phases.specs.merging.Merged.{in_order, all_events, merged, HoldsParts};
ghost use Rattle.engine_phases.specs.merging.Merged.{AreOwnParts, part_of};

use history_model::{Event, Stamped};
use pci_command::{List, NoMemory};
use std::alloc::Global;

/// The events of all parts, each oldest first, in the order of their stamps; events of equal stamps
/// stand in the order of the parts, and those of one part in their own order. The first event comes
/// first.
pub fn merge(alloc: Global, parts: List<List<Stamped>>) -> Result<List<Event>, NoMemory>
    ensures order { IfOk result (λ events. events ≡ map (λ stamped. stamped.event) (merged parts)) }
    ensures history { IfOk result
        (λ events. history_of events ≡ events_of (reverse (merged parts))) }
{
    let all = gather(alloc, parts.as_slice())?;
    drop(parts);
    let sorted = sort(all)?;
    strip(alloc, sorted.as_slice())
}

/// The merge keeps of each bus what it did, in its order, and the stamps never fall, also where the
/// parts are given one by one with their buses (clause `own`): with `sorted_parts_run` it is a run
/// of the board where each bus did a local run.
pub fn merge_keeps_parts()
    ensures held { (board : Board) (part : ℕ → Items StampedEvent)
        (parts : Items (Items StampedEvent)) → HoldsParts board part parts →
        IsMerged board part (reverse (merged parts)) }
    ensures own { (board : Board) (buses : Items ℕ) (parts : Items (Items StampedEvent)) →
        AreOwnParts board buses parts →
        IsMerged board (part_of buses parts) (reverse (merged parts)) }
{}

/// Part after part.
fn gather(alloc: Global, parts: &[List<Stamped>]) -> Result<Vec<Stamped>, NoMemory>
    ensures { IfOk result (λ all. all.items ≡ all_events parts.now) }
{
    let mut all = Vec::new(alloc);
    for part in parts {
        all.extend_from_slice(part.as_slice())?;
    }
    Ok(all)
}

/// In the order of the stamps.
fn sort(mut all: Vec<Stamped>) -> Result<Vec<Stamped>, NoMemory>
    ensures { IfOk result (λ sorted. sorted.items ≡ in_order all.items) }
{
    all.sort_by_key(|stamped| stamped.stamp)?;
    Ok(all)
}

/// The events without their stamps.
fn strip(alloc: Global, sorted: &[Stamped]) -> Result<List<Event>, NoMemory>
    ensures order { IfOk result (λ events. events ≡ map (λ stamped. stamped.event) sorted.now) }
    ensures history { IfOk result (λ events. history_of events ≡ events_of (reverse sorted.now)) }
{
    let mut events = Vec::new(alloc);
    events.reserve(sorted.len())?;
    for stamped in sorted {
        events.push(stamped.event)?;
    }
    Ok(List::from_vec(events))
}

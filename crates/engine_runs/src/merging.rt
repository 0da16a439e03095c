ghost use Rattle.std.specs.Prelude.{◌≡◌, IfOk, map};
ghost use Rattle.history_model.specs.Runs.{history_of};
ghost use Rattle.engine_phases.specs.Phase.{history_of_all};
ghost use Rattle.engine_runs.specs.Loop.{all_seen};

use bus_segment::Worker;
use engine_phases::merge;
use history_model::{Event, Stamped};
use lane_items::LaneEnd;
use pci_command::{List, NoMemory};
use std::alloc::Global;

/// What all workers did, as one history: in the order of the stamps, and of equal stamps in that of
/// the buses. The first event comes first.
pub fn merge_all<L: LaneEnd + Drop>(
    alloc: Global,
    workers: Vec<Worker<L>>,
) -> Result<List<Event>, NoMemory>
    ensures { IfOk result (λ events. history_of events ≡ history_of_all (all_seen workers.items)) }
{
    let parts = all_parts(alloc, workers)?;
    merge(alloc, List::from_vec(parts))
}

fn all_parts<L: LaneEnd + Drop>(
    alloc: Global,
    workers: Vec<Worker<L>>,
) -> Result<Vec<List<Stamped>>, NoMemory>
    ensures { IfOk result (λ parts. parts.items ≡ map (λ w. w.events) (all_seen workers.items)) }
{
    let mut parts = Vec::new(alloc);
    for worker in workers {
        parts.push(worker.take_events())?;
    }
    Ok(parts)
}

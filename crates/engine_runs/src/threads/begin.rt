ghost use Rattle.std.specs.Prelude.{◌≡◌, ◌-◌, ◌^◌, min, IfOk};
ghost use Rattle.engine_phases.specs.Phase.{count_all};
ghost use Rattle.engine_runs.specs.Loop.{all_seen};
ghost use Rattle.engine_runs.specs.threads.Rounds.{StampsUpTo, IsNextStamp, HasBegun, EachBegun};

use bus_segment::Worker;
use lane_items::LaneEnd;
use pci_command::NoMemory;

/// One more than the greatest stamp of all workers.
pub(crate) fn next_stamp<L: LaneEnd + Drop>(workers: &[Worker<L>]) -> u32
    requires { StampsUpTo (2 ^ 31) (all_seen workers.now) }
    ensures { IsNextStamp (all_seen workers.now) result }
{
    let mut next = 0u32;
    for worker in workers {
        next = next.max(worker.stamp() + 1);
    }
    next
}

/// How many events all workers recorded; the greatest number, should there be more.
pub(crate) fn recorded<L: LaneEnd + Drop>(workers: &[Worker<L>]) -> usize
    ensures { result ≡ min (count_all (all_seen workers.now)) (2 ^ 64 - 1) }
{
    let mut count = 0usize;
    for worker in workers {
        count = count.saturating_add(worker.recorded());
    }
    count
}

/// Each worker begins a phase: later events have stamps from this number on, and a turn has room.
pub(crate) fn begin_all<L: LaneEnd + Drop>(
    workers: &mut [Worker<L>],
    from: u32,
) -> Result<(), NoMemory>
    ensures { IfOk result (λ _. EachBegun from workers.old workers.new) }
{
    for worker in workers.iter_mut() {
        begin(worker, from)?;
    }
    Ok(())
}

/// One worker begins it.
fn begin<L: LaneEnd + Drop>(worker: &mut Worker<L>, from: u32) -> Result<(), NoMemory>
    ensures { IfOk result (λ _. HasBegun from worker.old worker.new) }
{
    worker.reserve()?;
    worker.begin(from);
    Ok(())
}

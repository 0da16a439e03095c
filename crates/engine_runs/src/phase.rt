ghost use Rattle.std.specs.Prelude.{◌≡◌, ◌==◌, ◌&&◌, not, true, IfOk};
ghost use Rattle.board_model.specs.Valid.{IsValid};
ghost use Rattle.bus_segment.specs.turns.Works.{GivesOnlyRetries};
ghost use Rattle.engine_runs.specs.Loop.{seen, all_seen, IsReady, AreReady, Worked, AllWorked};
ghost use Rattle.engine_runs.specs.Loop.{AreMarkedIdle};

use board_tree::Tree;
use bus_segment::Worker;
use lane_items::LaneEnd;
use pci_command::NoMemory;

/// Each worker does its turn of the phase of this number: whether any of them made an event. Those
/// that made none are marked idle: they serve nobody before something comes to them.
pub(crate) fn work_all<L: LaneEnd + Drop>(
    workers: &mut [Worker<L>],
    idle: &mut [bool],
    board: &Tree,
    phase: u32,
) -> Result<bool, NoMemory>
    requires valid { IsValid board.now }
    requires ready { AreReady (all_seen workers.old) }
    requires marked { AreMarkedIdle board.now (all_seen workers.old) idle.old }
    ensures worked { IfOk result (λ busy. AllWorked L.had L.sent L.got L.kept L.paired board.now
        phase (all_seen workers.old) (all_seen workers.new) busy) }
    ensures marked { IfOk result (λ _. AreMarkedIdle board.now (all_seen workers.new) idle.new) }
{
    let mut busy = false;
    for place in 0..workers.len() {
        if work(&mut workers[place], &mut idle[place], board, phase)? {
            busy = true;
        }
    }
    Ok(busy)
}

/// One turn in the phase of this number: whether it made an event.
fn work<L: LaneEnd + Drop>(
    worker: &mut Worker<L>,
    idle: &mut bool,
    board: &Tree,
    phase: u32,
) -> Result<bool, NoMemory>
    requires valid { IsValid board.now }
    requires ready { IsReady (seen worker.old) }
    requires marked { idle.old ≡ true → GivesOnlyRetries board.now worker.old.segment.bus }
    ensures worked { IfOk result (λ busy. Worked L.had L.sent L.got L.kept L.paired board.now phase
        (seen worker.old) (seen worker.new) busy) }
    ensures marked { IfOk result (λ _. idle.new ≡ true →
        GivesOnlyRetries board.now worker.new.segment.bus) }
{
    worker.reserve()?;
    worker.begin(phase);
    let count = worker.turn_again(board, *idle);
    *idle = is_idle(count, worker.stopped());
    Ok(count > 0)
}

/// Whether a turn of so many events leaves the bus idle.
fn is_idle(events: u32, stopped: bool) -> bool
    ensures { result ≡ ((events == 0) && not stopped) }
{
    events == 0 && !stopped
}

ghost use Rattle.engine_phases.specs.Phase.{AllMaySettle, AllSettled};
ghost use Rattle.engine_runs.specs.Loop.{all_seen};
ghost use Rattle.engine_runs.specs.Settling.{AreAbove, AreLaidOut, CanMeet, SettlesOne};

use bus_segment::Worker;
use lane_items::LaneEnd;

/// Where the lane up from a bus ends: at which worker, and at which of its ports.
#[derive(Clone, Copy, Debug)]
pub struct Above {
    pub(crate) worker: usize,
    pub(crate) port: usize,
}

/// Settles the ends of the two lanes of each bridge: what was sent on a bus, and was not got on the
/// other, is in hand there.
pub fn settle_all<L: LaneEnd + Drop>(workers: &mut [Worker<L>], above: &[Above])
    requires laid { AreLaidOut (all_seen workers.old) }
    requires above { AreAbove (all_seen workers.old) above.now }
    requires may { AllMaySettle L.had L.sent L.got L.kept L.paired (all_seen workers.old) }
    ensures { AllSettled L.had L.sent L.got L.kept L.paired (all_seen workers.old)
        (all_seen workers.new) }
{
    for (place, up) in above.iter().enumerate() {
        settle_one(workers, *up, place + 1);
    }
}

/// Settles the bridge to the bus of the worker at the place.
fn settle_one<L: LaneEnd + Drop>(workers: &mut [Worker<L>], above: Above, place: usize)
    requires { CanMeet L.had L.sent L.got L.kept L.paired (all_seen workers.old) above place }
    ensures { SettlesOne L.had L.sent L.got L.kept L.paired (all_seen workers.old) above place
        (all_seen workers.new) }
{
    let (earlier, later) = workers.split_at_mut(place);
    let upper = &mut earlier[above.worker];
    let lower = &mut later[0];
    upper.settle_with(above.port, lower, 0);
}

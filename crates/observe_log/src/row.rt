ghost use Rattle.std.specs.Prelude.{◌≡◌, IsTrue};
ghost use Rattle.board_model.specs.WellFormed.{is_well_formed};
ghost use Rattle.board_model.specs.Ways.{is_lane};
ghost use Rattle.observe_told.specs.Addresses.{claimant};
ghost use Rattle.observe_told.specs.declared.seen.Log.{Log};
ghost use Rattle.observe_log.specs.Rows.{posted_row, end_row, delayed_row, row_of};

use board_model::Place;
use observe_told::{Ending, Log, Seen, Who};

/// What the acts of a line are.
#[derive(Clone, Copy)]
pub(crate) enum Row {
    /// A fruitless Retry: none.
    Silent,
    /// A Retry of a bridge to a delayed request: none, or a Latch.
    Latches,
    /// An end of a delayed request at a bridge: a Take, before which it may be latched.
    Takes,
    /// A master reads where no bridge claims: a Read for each data phase.
    Reads,
    /// A bridge reads there: one Read, of the first data phase.
    ReadsFirst,
    /// A delayed write where no bridge claims: a Land.
    Writes,
    /// A posted write: its data phases in one piece or more.
    Posts,
    /// A delayed request that nobody claimed: a MasterAbort.
    Unclaimed,
    /// A posted write that nobody claimed: a MasterAbort for each operation.
    UnclaimedPosts,
}

/// What the acts of a line of the log are.
pub(crate) fn row_of(log: &Log, seen: &Seen) -> Row
    requires { IsTrue (is_well_formed log.now.board) }
    ensures { result ≡ row_of log.now seen.now }
{
    if seen.is_posted() {
        return posted_row(seen.ending);
    }
    row_by(seen.claimant(&log.board), seen)
}

/// The same, where it is known who claims the line.
pub(crate) fn row_by(claimed: Place, seen: &Seen) -> Row
    ensures { (log : Log) → claimed ≡ claimant log.board seen.now → result ≡ row_of log seen.now }
{
    if seen.is_posted() {
        return posted_row(seen.ending);
    }
    delayed_row(is_lane(claimed), seen, seen.ending)
}

fn posted_row(ending: Ending) -> Row
    ensures { result ≡ posted_row ending }
{
    match ending {
        Ending::Done | Ending::TargetAbort => Row::Posts,
        Ending::Retry => Row::Silent,
        Ending::Nobody => Row::UnclaimedPosts,
    }
}

fn delayed_row(lane: bool, seen: &Seen, ending: Ending) -> Row
    ensures { result ≡ delayed_row lane seen.now ending }
{
    match ending {
        Ending::Done | Ending::TargetAbort => end_row(lane, seen),
        Ending::Retry if lane => Row::Latches,
        Ending::Retry => Row::Silent,
        Ending::Nobody => Row::Unclaimed,
    }
}

fn end_row(lane: bool, seen: &Seen) -> Row
    ensures { result ≡ end_row lane seen.now }
{
    if lane {
        return Row::Takes;
    }
    if !seen.command.is_read() {
        return Row::Writes;
    }
    match seen.who {
        Who::Master(_) => Row::Reads,
        Who::Lane(_) => Row::ReadsFirst,
    }
}

pub(crate) fn is_lane(place: Place) -> bool
    ensures { result ≡ is_lane place }
{
    matches!(place, Place::Lane(_))
}

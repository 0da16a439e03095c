ghost use Rattle.std.specs.Prelude.{◌≡◌};
ghost use Rattle.history_model.specs.Local.{bus_of};
ghost use Rattle.history_model.specs.Runs.{history_of};
ghost use Rattle.run_report.specs.Counts.{kind_of, kind_of_step};
ghost use Rattle.run_report.specs.Tallies.{counted, Fits, IsTallied};

use board_model::Board;
use history_model::{Event, Step};
use machine_steps::bus_of;

/// What a line of a report counts: a kind of events.
#[derive(Clone, Copy, Debug, PartialEq, Eq)]
pub enum CountedKind {
    /// A target took a write, or a part of one.
    Land,
    /// A target or the header of a bridge gave a dword.
    Read,
    /// A bridge posted a memory write.
    Accept,
    /// A bridge latched a delayed request.
    Latch,
    /// A bridge gave the completion of a delayed request.
    Take,
    /// A target asked for a retry.
    Stall,
    /// Nobody claimed a transaction.
    MasterAbort,
    /// A target answered with Target-Abort.
    TargetAbort,
    /// Something arrived on a lane that ends at the bus.
    Arrive,
}

/// How many events of each kind there were on one bus.
#[derive(Clone, Copy, Debug, Default, PartialEq, Eq)]
pub struct Tally {
    pub land: u64,
    pub read: u64,
    pub accept: u64,
    pub latch: u64,
    pub take: u64,
    pub stall: u64,
    pub nobody: u64,
    pub tabort: u64,
    pub arrive: u64,
}

/// No events.
const NONE: Tally = Tally {
    land: 0,
    read: 0,
    accept: 0,
    latch: 0,
    take: 0,
    stall: 0,
    nobody: 0,
    tabort: 0,
    arrive: 0,
};

/// How many events of each kind there were on each bus number.
pub(crate) fn tallies_of(board: &Board, events: &[Event]) -> [Tally; 256]
    ensures { IsTallied board.now (history_of events.now) result }
{
    let mut tallies = [NONE; 256];
    for event in events {
        note(
            &mut tallies[usize::from(bus_of(board, event))],
            kind_of(event),
        );
    }
    tallies
}

/// One event more of the kind.
fn note(tally: &mut Tally, kind: CountedKind)
    requires { Fits tally.old }
    ensures { tally.new ≡ counted kind tally.old }
{
    match kind {
        CountedKind::Land => tally.land += 1,
        CountedKind::Read => tally.read += 1,
        CountedKind::Accept => tally.accept += 1,
        CountedKind::Latch => tally.latch += 1,
        CountedKind::Take => tally.take += 1,
        CountedKind::Stall => tally.stall += 1,
        CountedKind::MasterAbort => tally.nobody += 1,
        CountedKind::TargetAbort => tally.tabort += 1,
        CountedKind::Arrive => tally.arrive += 1,
    }
}

fn kind_of(event: &Event) -> CountedKind
    ensures { result ≡ kind_of event.now }
{
    match event {
        Event::Act { step, .. } => kind_of_step(*step),
        Event::Arrive { .. } => CountedKind::Arrive,
    }
}

fn kind_of_step(step: Step) -> CountedKind
    ensures { result ≡ kind_of_step step }
{
    match step {
        Step::Land | Step::Part(_) => CountedKind::Land,
        Step::Read(_) => CountedKind::Read,
        Step::Accept => CountedKind::Accept,
        Step::Latch => CountedKind::Latch,
        Step::Take(_) => CountedKind::Take,
        Step::Stall => CountedKind::Stall,
        Step::MasterAbort => CountedKind::MasterAbort,
        Step::TargetAbort => CountedKind::TargetAbort,
    }
}

ghost use Rattle.std.specs.Prelude.{◌≡◌, ◌+◌, ◌<◌, ◌≤◌, length, IfOk};
ghost use Rattle.board_model.specs.Valid.{IsValid};
ghost use Rattle.board_model.specs.Ways.{bound_of};
ghost use Rattle.history_model.specs.Runs.{Run, Complete, history_of};
ghost use Rattle.engine_phases.specs.Phase.{IsCompleteRun, history_of_all};
ghost use Rattle.engine_runs.specs.Loop.{all_seen};
ghost use Rattle.engine_runs.specs.threads.Rounds.{IsInRounds};

use crate::threads::Gate;
use crate::threads::begin::{begin_all, next_stamp, recorded};
use crate::threads::phase::work_all;
use crate::{Above, all_above, all_workers, merge_all, settle_all};
use board_tree::Tree;
use bus_segment::Worker;
use engine_phases::{
    idle_rounds_end_the_run, rounds_are_few, rounds_go_on, rounds_may_settle, rounds_stop_no_worker,
};
use engine_segments::{ring_ends, segments};
use history_model::Event;
use lane_items::LaneEnd;
use pci_command::{List, NoMemory};
use std::alloc::Global;
use std::thread::Threads;

/// Works each bus of the board in a thread of its own, phase by phase: in each phase every bus does
/// turns until one did nothing, what is sent over a bridge may arrive in the same phase, and then
/// all lanes are settled. It ends after a phase in which no bus did anything; what all buses did is
/// then a complete run, no longer than the board's bound. The first event comes first. The gate is
/// told of each turn. As long as the last phases were so short that threads would be started more
/// than worked, one thread does the turns of all buses.
pub fn run_rings<R: Threads + Sync, G: Gate + Sync>(
    rt: &R,
    alloc: Global,
    tree: &Tree,
    gate: &G,
) -> Result<List<Event>, NoMemory>
    ensures run { IfOk result (λ events. Run tree.now (history_of events)) }
    ensures complete { IfOk result (λ events. Complete tree.now (history_of events)) }
    ensures bound { IfOk result (λ events. length (history_of events) ≤ bound_of tree.now) }
{
    let ends = ring_ends(alloc, tree)?;
    let segments = segments(alloc, tree, ends)?;
    let workers = all_workers(alloc, segments)?;
    let above = all_above(alloc, tree.board())?;
    run_all(rt, alloc, gate, tree, workers, above.as_slice())
}

/// More phases than there ever are: each but the last one makes an event.
const TOO_MANY_PHASES: u32 = 500_001;

/// A thread is started in about the time in which so many events are made.
const EVENTS_A_START: usize = 128;

/// Phase after phase, until one makes no event: what all workers did is a complete run of the
/// board.
fn run_all<L: LaneEnd + Drop + Send, R: Threads + Sync, G: Gate + Sync>(
    rt: &R,
    alloc: Global,
    gate: &G,
    board: &Tree,
    mut workers: Vec<Worker<L>>,
    above: &[Above],
) -> Result<List<Event>, NoMemory>
    requires valid { IsValid board.now }
    requires rounds { IsInRounds L.had L.sent L.got L.kept L.paired board.now
        (all_seen workers.items) above.now 0 }
    ensures { IfOk result (λ events. IsCompleteRun board.now (history_of events)) }
{
    rounds_are_few::<L>();
    let buses = workers.len();
    let mut threads = buses;
    let mut recent = 0usize;
    for phases in 0..TOO_MANY_PHASES {
        let round = Round { phases, threads };
        let events = run_phase(rt, gate, board, workers.as_mut_slice(), above, round)?;
        if events == 0 {
            return merge_all(alloc, workers);
        }
        recent = (recent / 2).saturating_add(events);
        threads = if recent / EVENTS_A_START < buses {
            1
        } else {
            buses
        };
    }
    unreachable!()
}

/// A phase that is to be worked: how many there were before it, and by how many threads.
#[derive(Clone, Copy)]
struct Round {
    phases: u32,
    threads: usize,
}

/// One phase: how many events it made. All lanes are settled then. A phase without events is
/// settled too: only the settles show that no bus stopped.
fn run_phase<L: LaneEnd + Drop + Send, R: Threads + Sync, G: Gate + Sync>(
    rt: &R,
    gate: &G,
    board: &Tree,
    workers: &mut [Worker<L>],
    above: &[Above],
    round: Round,
) -> Result<usize, NoMemory>
    requires valid { IsValid board.now }
    requires rounds { IsInRounds L.had L.sent L.got L.kept L.paired board.now
        (all_seen workers.old) above.now round.phases }
    ensures busy { IfOk result (λ events. 0 < events → IsInRounds L.had L.sent L.got L.kept L.paired
        board.now (all_seen workers.new) above.now (round.phases + 1)) }
    ensures idle { IfOk result (λ events. events ≡ 0 →
        IsCompleteRun board.now (history_of_all (all_seen workers.new))) }
{
    rounds_are_few::<L>();
    rounds_may_settle::<L>();
    rounds_stop_no_worker::<L>();
    rounds_go_on::<L>();
    idle_rounds_end_the_run::<L>();
    let before = recorded(workers);
    let from = next_stamp(workers);
    begin_all(workers, from)?;
    work_all(rt, gate, round.threads, board, workers);
    let events = recorded(workers).saturating_sub(before);
    settle_all(workers, above);
    Ok(events)
}

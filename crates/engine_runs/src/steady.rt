ghost use Rattle.std.specs.Prelude.{◌≡◌, ◌+◌, ◌≤◌, ◌<◌, true, false, length, map, replicate, IfOk, OnOk};
ghost use Rattle.board_model.specs.Valid.{IsValid};
ghost use Rattle.board_model.specs.Ways.{bound_of};
ghost use Rattle.history_model.specs.Runs.{Run, Complete, history_of};
ghost use Rattle.engine_phases.specs.Phase.{CrossesAtSettle, IsCompleteRun, history_of_all};
ghost use Rattle.engine_runs.specs.Loop.{all_seen, AreMarkedIdle};
ghost use Rattle.engine_runs.specs.Steady.{IsSteady};

use crate::first::{all_above, all_workers};
use crate::merging::merge_all;
use crate::phase::work_all;
use crate::settling::{Above, settle_all};
use board_tree::Tree;
use bus_segment::Worker;
use engine_phases::{
    idle_phases_end_the_run, phases_are_few, settles_end_a_phase, turns_stop_no_worker,
};
use engine_segments::{plain_ends, segments};
use history_model::Event;
use lane_ends::got_in_order;
use lane_items::LaneEnd;
use pci_command::{List, NoMemory};
use std::alloc::Global;

/// Works the buses of the board one after another, phase by phase: in each phase each bus does one
/// turn, and then all lanes are settled. It ends after a phase in which no bus did anything; what
/// all buses did is then a complete run, no longer than the board's bound. The first event comes
/// first.
pub fn run_steady(alloc: Global, tree: &Tree) -> Result<List<Event>, NoMemory>
    ensures run { IfOk result (λ events. Run tree.now (history_of events)) }
    ensures complete { IfOk result (λ events. Complete tree.now (history_of events)) }
    ensures bound { IfOk result (λ events. length (history_of events) ≤ bound_of tree.now) }
{
    got_in_order();
    let ends = plain_ends(alloc, tree)?;
    let segments = segments(alloc, tree, ends)?;
    let workers = all_workers(alloc, segments)?;
    let above = all_above(alloc, tree.board())?;
    run_all(alloc, tree, workers, above.as_slice())
}

/// More phases than there ever are: each but the last one makes an event.
const TOO_MANY_PHASES: u32 = 500_001;

/// Phase after phase, until one makes no event: what all workers did is a complete run of the
/// board.
fn run_all<L: LaneEnd + Drop>(
    alloc: Global,
    board: &Tree,
    mut workers: Vec<Worker<L>>,
    above: &[Above],
) -> Result<List<Event>, NoMemory>
    requires valid { IsValid board.now }
    requires crosses { CrossesAtSettle L.had L.got }
    requires steady { IsSteady L.had L.sent L.got L.kept L.paired board.now
        (all_seen workers.items) above.now 0 }
    ensures { IfOk result (λ events. IsCompleteRun board.now (history_of events)) }
{
    let mut idle = none_idle(alloc, workers.len())?;
    run_phases(workers.as_mut_slice(), idle.as_mut_slice(), board, above)?;
    merge_all(alloc, workers)
}

/// None of so many buses is marked idle.
fn none_idle(alloc: Global, buses: usize) -> Result<Vec<bool>, NoMemory>
    ensures { IfOk result (λ idle. idle.items ≡ replicate buses false) }
{
    let idle = vec![in alloc; false; buses]?;
    Ok(idle)
}

/// The phases, up to the first that makes no event.
fn run_phases<L: LaneEnd + Drop>(
    workers: &mut [Worker<L>],
    idle: &mut [bool],
    board: &Tree,
    above: &[Above],
) -> Result<(), NoMemory>
    requires valid { IsValid board.now }
    requires crosses { CrossesAtSettle L.had L.got }
    requires steady { IsSteady L.had L.sent L.got L.kept L.paired board.now
        (all_seen workers.old) above.now 0 }
    requires marked { AreMarkedIdle board.now (all_seen workers.old) idle.old }
    ensures { OnOk result (IsCompleteRun board.now (history_of_all (all_seen workers.new))) }
{
    phases_are_few::<L>();
    for phases in 0..TOO_MANY_PHASES {
        if !run_phase(workers, idle, board, above, phases)? {
            return Ok(());
        }
    }
    unreachable!()
}

/// One phase: whether it made an event. If it did, all lanes are settled for the next one.
fn run_phase<L: LaneEnd + Drop>(
    workers: &mut [Worker<L>],
    idle: &mut [bool],
    board: &Tree,
    above: &[Above],
    phases: u32,
) -> Result<bool, NoMemory>
    requires valid { IsValid board.now }
    requires crosses { CrossesAtSettle L.had L.got }
    requires few { phases < 500001 }
    requires steady { IsSteady L.had L.sent L.got L.kept L.paired board.now (all_seen workers.old)
        above.now phases }
    requires marked { AreMarkedIdle board.now (all_seen workers.old) idle.old }
    ensures marked { IfOk result (λ _. AreMarkedIdle board.now (all_seen workers.new) idle.new) }
    ensures busy { IfOk result (λ busy. busy ≡ true → IsSteady L.had L.sent L.got L.kept L.paired
        board.now (all_seen workers.new) above.now (phases + 1)) }
    ensures idle { IfOk result (λ busy. busy ≡ false →
        IsCompleteRun board.now (history_of_all (all_seen workers.new))) }
{
    turns_stop_no_worker::<L>();
    settles_end_a_phase::<L>();
    idle_phases_end_the_run::<L>();
    let busy = work_all(workers, idle, board, phases + 1)?;
    if busy {
        settle_all(workers, above);
    }
    Ok(busy)
}

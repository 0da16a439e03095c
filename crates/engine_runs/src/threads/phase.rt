ghost use Rattle.std.specs.Prelude.{◌≡◌, ◌≤◌, All, length, drop, true, false};
ghost use Rattle.engine_runs.specs.Loop.{seen};
ghost use Rattle.engine_runs.specs.threads.Turns.{HasRoom, HasTurned, Ran, EachRan};
ghost use Rattle.engine_runs.specs.threads.Tries.{are_unmet_tries};

use crate::threads::Gate;
use crate::threads::tries::are_unmet_tries;
use board_model::ROOM_OF_A_TURN;
use board_tree::Tree;
use bus_segment::{Worker, steps_go_on};
use history_model::Stamped;
use lane_items::LaneEnd;
use std::thread;
use std::thread::Threads;

/// Each bus does its turns of a phase, in one of so many threads: it meets the gate, and then does
/// turns until one did nothing but tries of polls that were not met, if anything, or there is no
/// more room for the events of another.
pub(crate) fn work_all<L: LaneEnd + Drop + Send, R: Threads + Sync, G: Gate + Sync>(
    rt: &R,
    gate: &G,
    threads: usize,
    board: &Tree,
    workers: &mut [Worker<L>],
)
    requires { All (λ w. HasRoom board.now w) workers.old }
    ensures { EachRan L.had L.sent L.got L.kept L.paired board.now workers.old workers.new }
{
    let threads = threads.max(1);
    thread::for_each_mut(rt, workers, threads, &|_, worker| work(gate, board, worker));
}

/// The turns of one bus.
fn work<L: LaneEnd + Drop, G: Gate>(gate: &G, board: &Tree, worker: &mut Worker<L>)
    requires { HasRoom board.now worker.old }
    ensures { Ran L.had L.sent L.got L.kept L.paired board.now (seen worker.old) (seen worker.new) }
{
    steps_go_on::<L>();
    gate.meet(worker.bus());
    let mut goes_on = turn(gate, board, worker);
    for _ in 0..worker.spare() {
        if !goes_on {
            return;
        }
        goes_on = turn(gate, board, worker);
    }
}

/// One turn: whether another one follows it. None does where it made nothing but tries of polls
/// that were not met: what other buses have to do comes before the next tries.
fn turn<L: LaneEnd + Drop, G: Gate>(gate: &G, board: &Tree, worker: &mut Worker<L>) -> bool
    requires { HasRoom board.now worker.old }
    ensures turned { HasTurned L.had L.sent L.got L.kept L.paired board.now (seen worker.old)
        worker.new result }
    ensures tries { result ≡ true → are_unmet_tries board.now
        (drop (length worker.old.segment.events.items) worker.new.segment.events.items) ≡ false }
{
    let before = worker.recorded();
    let events = worker.turn(board);
    gate.did(worker.bus(), events);
    events > 0
        && !worker.stopped()
        && worker.spare() >= ROOM_OF_A_TURN
        && !are_unmet_tries(board.board(), newer(worker, before))
}

/// What the worker did after so many events.
fn newer<L: LaneEnd + Drop>(worker: &Worker<L>, before: usize) -> &[Stamped]
    requires { before ≤ length worker.now.segment.events.items }
    ensures { result.now ≡ drop before worker.now.segment.events.items }
{
    &worker.events()[before..]
}

ghost use Rattle.std.specs.Prelude.{◌<◌, ◌^◌, length, IfOk, IfErr};
ghost use Rattle.program_input.specs.Boards.{RefusesBoard};
ghost use Rattle.command_runs.specs.run.Answers.{AnswersRun, RunsTo};

use board_tree::Tree;
use engine_runs::{Gate, steady_run, threaded_run};
use pci_command::{List, NoMemory};
use program_input::read_tree;
use program_status::Status;
use std::alloc::Global;
use std::thread::Threads;
use trace_roundtrip::run_text;

/// The trace of a run of the board whose text these bytes are, in which a thread of its own works
/// each bus, and the gate is told of the turns of each: which run it is depends on the threads. It
/// is refused as the text of no valid board.
pub fn answer_run<R: Threads + Sync, G: Gate + Sync>(
    rt: &R,
    alloc: Global,
    input: &[u8],
    gate: &G,
) -> Result<Vec<u8>, Status>
    requires { length input.now < 2 ^ 31 }
    ensures ok { IfOk result (λ trace. AnswersRun input.now trace.items) }
    ensures err { IfErr result (RefusesBoard input.now) }
{
    let tree = read_tree(alloc, input)?;
    match threaded_trace(rt, alloc, &tree, gate) {
        Ok(trace) => Ok(trace.into_vec()),
        Err(_) => Err(Status::NoMemory),
    }
}

/// The same, where the buses work phase by phase, one after the other: the same run each time.
pub fn answer_run_steady(alloc: Global, input: &[u8]) -> Result<Vec<u8>, Status>
    requires { length input.now < 2 ^ 31 }
    ensures ok { IfOk result (λ trace. AnswersRun input.now trace.items) }
    ensures err { IfErr result (RefusesBoard input.now) }
{
    let tree = read_tree(alloc, input)?;
    match steady_trace(alloc, &tree) {
        Ok(trace) => Ok(trace.into_vec()),
        Err(_) => Err(Status::NoMemory),
    }
}

fn threaded_trace<R: Threads + Sync, G: Gate + Sync>(
    rt: &R,
    alloc: Global,
    tree: &Tree,
    gate: &G,
) -> Result<List<u8>, NoMemory>
    ensures { IfOk result (RunsTo tree.now) }
{
    let events = threaded_run(rt, alloc, tree, gate)?;
    run_text(alloc, tree.board(), events.as_slice())
}

fn steady_trace(alloc: Global, tree: &Tree) -> Result<List<u8>, NoMemory>
    ensures { IfOk result (RunsTo tree.now) }
{
    let events = steady_run(alloc, tree)?;
    run_text(alloc, tree.board(), events.as_slice())
}

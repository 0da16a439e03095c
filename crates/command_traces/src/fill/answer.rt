ghost use Rattle.std.specs.Prelude.{◌≡◌, ◌<◌, ◌≤◌, ◌^◌, ℕ, List, length, IfOk, IfErr};
ghost use Rattle.board_model.specs.Ways.{bound_of};
ghost use Rattle.history_model.specs.Runs.{Run, history_of};
ghost use Rattle.trace_roundtrip.specs.Printed.{IsTraceOf};
ghost use Rattle.program_input.specs.Traces.{ReadsTree};
ghost use Rattle.command_traces.specs.fill.Answers.{AnswersFill, RefusesFill};

use board_tree::Tree;
use history_model::Event;
use judge_fill::{Unfilled, fill};
use program_input::{TreeTrace, read_tree_trace};
use program_status::Status;
use std::alloc::Global;
use trace_roundtrip::run_text;

/// The trace of the acts of a trace text, in which all that is in flight arrives before the next
/// act, and at the end.
pub fn answer_fill(alloc: Global, input: &[u8]) -> Result<Vec<u8>, Status>
    requires { length input.now < 2 ^ 31 }
    ensures ok { IfOk result (λ text. AnswersFill input.now text.items) }
    ensures err { IfErr result (RefusesFill input.now) }
{
    let read = read_tree_trace(alloc, input)?;
    filled_text(alloc, &read)
}

/// The same of what was read.
fn filled_text(alloc: Global, read: &TreeTrace) -> Result<Vec<u8>, Status>
    requires { length read.now.events < 2 ^ 32 }
    ensures ok { (input : List ℕ) → ReadsTree input read.now →
        IfOk result (λ text. AnswersFill input text.items) }
    ensures err { (input : List ℕ) → ReadsTree input read.now → IfErr result (RefusesFill input) }
{
    match fill(alloc, &read.tree, read.events.as_slice()) {
        Ok(whole) => text_of_run(alloc, &read.tree, whole.as_slice()),
        Err(Unfilled::NotRun { event, why }) => Err(Status::NotRun { event, why }),
        Err(Unfilled::NoMemory) => Err(Status::NoMemory),
    }
}

/// The trace text of a run, complete or not, which is read as this run.
fn text_of_run(alloc: Global, tree: &Tree, events: &[Event]) -> Result<Vec<u8>, Status>
    requires run { Run tree.now (history_of events.now) }
    requires few { length events.now ≤ bound_of tree.now }
    ensures ok { IfOk result (λ text. IsTraceOf tree.now events.now text.items) }
    ensures err { IfErr result (λ status. status ≡ Status.NoMemory) }
{
    match run_text(alloc, tree.board(), events) {
        Ok(text) => Ok(text.into_vec()),
        Err(_) => Err(Status::NoMemory),
    }
}

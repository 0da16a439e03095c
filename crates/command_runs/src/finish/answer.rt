ghost use Rattle.std.specs.Prelude.{◌<◌, ◌^◌, ℕ, List, length, IfOk, IfErr};
ghost use Rattle.program_input.specs.Traces.{ReadsTrace};
ghost use Rattle.command_runs.specs.finish.Answers.{AnswersFinish, RefusesFinish};

use board_tree::Tree;
use history_model::Event;
use judge_finish::{Unfinished, finish};
use pci_command::List;
use program_input::{TreeTrace, read_tree_trace};
use program_status::Status;
use std::alloc::Global;
use trace_roundtrip::run_text;

/// The trace of a run that goes on to its end, for a trace text of a run.
pub fn answer_finish(alloc: Global, input: &[u8]) -> Result<Vec<u8>, Status>
    requires { length input.now < 2 ^ 31 }
    ensures ok { IfOk result (λ text. AnswersFinish input.now text.items) }
    ensures err { IfErr result (RefusesFinish input.now) }
{
    let TreeTrace { tree, events } = read_tree_trace(alloc, input)?;
    finished_text(alloc, &tree, events)
}

/// The same of the events that were read.
fn finished_text(alloc: Global, tree: &Tree, events: List<Event>) -> Result<Vec<u8>, Status>
    requires { length events < 2 ^ 32 }
    ensures ok { (input : List ℕ) → ReadsTrace input tree.now events →
        IfOk result (λ text. AnswersFinish input text.items) }
    ensures err { (input : List ℕ) → ReadsTrace input tree.now events →
        IfErr result (RefusesFinish input) }
{
    let board = tree.board();
    match finish(alloc, tree, events) {
        Ok(whole) => match run_text(alloc, board, whole.as_slice()) {
            Ok(text) => Ok(text.into_vec()),
            Err(_) => Err(Status::NoMemory),
        },
        Err(Unfinished::NotRun { event, why }) => Err(Status::NotRun { event, why }),
        Err(Unfinished::NoMemory) => Err(Status::NoMemory),
    }
}

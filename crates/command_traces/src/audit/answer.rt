ghost use Rattle.std.specs.Prelude.{◌≡◌, ◌<◌, ◌^◌, length, IfOk, IfErr};
ghost use Rattle.history_model.specs.Runs.{Run, history_of};
ghost use Rattle.command_traces.specs.Runs.{RefusesRun};
ghost use Rattle.command_traces.specs.audit.Answers.{AnswersAudit, Audits};

use crate::run::read_run;
use audit_text::audit_text;
use board_tree::Tree;
use history_model::Event;
use law_audit::{findings_are_so, reads_are_found_once, reads_that_knew_are_found};
use law_delivered::reads_return_what_was_left;
use law_fresh::runs_are_fresh;
use program_status::Status;
use std::alloc::Global;

/// The audit of a run, complete or not, for its trace text.
pub fn answer_audit(alloc: Global, input: &[u8]) -> Result<Vec<u8>, Status>
    requires { length input.now < 2 ^ 31 }
    ensures ok { IfOk result (λ text. AnswersAudit input.now text.items) }
    ensures err { IfErr result (RefusesRun input.now) }
{
    let read = read_run(alloc, input)?;
    text_of_run(alloc, &read.tree, read.events.as_slice())
}

/// The audit of a run, which is fresh: what it says is so, and it says it all, once.
fn text_of_run(alloc: Global, tree: &Tree, events: &[Event]) -> Result<Vec<u8>, Status>
    requires { Run tree.now (history_of events.now) }
    ensures ok { IfOk result (λ text. Audits tree.now events.now text.items) }
    ensures err { IfErr result (λ status. status ≡ Status.NoMemory) }
{
    runs_are_fresh();
    reads_return_what_was_left();
    findings_are_so();
    reads_that_knew_are_found();
    reads_are_found_once();
    // The board of a tree is valid, so that the laws hold of its runs.
    let _valid = tree.board();
    match audit_text(alloc, tree, events) {
        Ok(text) => Ok(text.into_vec()),
        Err(_) => Err(Status::NoMemory),
    }
}

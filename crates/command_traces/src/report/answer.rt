ghost use Rattle.std.specs.Prelude.{◌≡◌, ◌<◌, ◌^◌, length, IfOk, IfErr};
ghost use Rattle.history_model.specs.Runs.{Run, history_of};
ghost use Rattle.command_traces.specs.Runs.{RefusesRun};
ghost use Rattle.command_traces.specs.report.Answers.{AnswersReport, Reports};

use crate::run::read_run;
use board_model::board_fits;
use board_tree::Tree;
use history_model::Event;
use law_delivered::reads_return_what_was_left;
use law_fresh::runs_are_fresh;
use program_status::Status;
use run_report::{complete_runs_have_the_way_counts, counts_add_up, whole_report};
use std::alloc::Global;

/// The report of a run, complete or not, for its trace text.
pub fn answer_report(alloc: Global, input: &[u8]) -> Result<Vec<u8>, Status>
    requires { length input.now < 2 ^ 31 }
    ensures ok { IfOk result (λ text. AnswersReport input.now text.items) }
    ensures err { IfErr result (RefusesRun input.now) }
{
    let read = read_run(alloc, input)?;
    text_of_run(alloc, &read.tree, read.events.as_slice())
}

/// The report of a run.
fn text_of_run(alloc: Global, tree: &Tree, events: &[Event]) -> Result<Vec<u8>, Status>
    requires { Run tree.now (history_of events.now) }
    ensures ok { IfOk result (λ text. Reports tree.now events.now text.items) }
    ensures err { IfErr result (λ status. status ≡ Status.NoMemory) }
{
    runs_are_fresh();
    reads_return_what_was_left();
    complete_runs_have_the_way_counts();
    counts_add_up();
    // The board of a tree is valid, and its bus numbers are bytes.
    let board = tree.board();
    board_fits(board);
    match whole_report(alloc, tree, events) {
        Ok(text) => Ok(text.into_vec()),
        Err(_) => Err(Status::NoMemory),
    }
}

ghost use Rattle.std.specs.Prelude.{◌≡◌, IfOk, IfErr, IsTrue};
ghost use Rattle.traffic_generator.specs.Generated.{generated};
ghost use Rattle.command_runs.specs.generate.Answers.{names_rounds, AnswersGenerate};
ghost use Rattle.command_runs.specs.generate.Answers.{GeneratesTo, RefusesGenerate};

use crate::generate::rounds_of;
use board_tree::Tree;
use judge_finish::{Unfinished, finish};
use pci_command::{List, NoMemory};
use program_status::Status;
use run_report::report;
use std::alloc::Global;
use traffic_generator::{Rounds, generate, generated_boards_are_valid};

/// The report of the run of the board of so many rounds as the word names.
pub fn answer_generate(alloc: Global, word: &[u8]) -> Result<Vec<u8>, Status>
    requires { IsTrue (names_rounds word.now) }
    ensures ok { IfOk result (λ text. AnswersGenerate word.now text.items) }
    ensures err { IfErr result (RefusesGenerate word.now) }
{
    let rounds = rounds_of(word).unwrap();
    match report_of(alloc, &rounds) {
        Ok(text) => Ok(text.into_vec()),
        Err(_) => Err(Status::NoMemory),
    }
}

fn report_of(alloc: Global, rounds: &Rounds) -> Result<List<u8>, NoMemory>
    ensures { IfOk result (GeneratesTo rounds.now) }
{
    let tree = generate(alloc, rounds)?;
    report_on(alloc, rounds, &tree)
}

/// The same of the board of the rounds.
fn report_on(alloc: Global, rounds: &Rounds, tree: &Tree) -> Result<List<u8>, NoMemory>
    requires { tree.now ≡ generated rounds.now }
    ensures { IfOk result (GeneratesTo rounds.now) }
{
    generated_boards_are_valid();
    let _board = tree.board();
    match finish(alloc, tree, List::from_vec(Vec::new(alloc))) {
        Ok(events) => report(alloc, tree, events.as_slice()),
        Err(Unfinished::NoMemory) => Err(NoMemory),
        Err(Unfinished::NotRun { .. }) => unreachable!(),
    }
}

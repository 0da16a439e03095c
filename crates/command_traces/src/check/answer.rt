ghost use Rattle.std.specs.Prelude.{◌≡◌, ◌++◌, ◌<◌, ◌^◌, length, IfOk, IfErr, OnOk, string_bytes};
ghost use Rattle.command_traces.specs.check.Answers.{AnswersCheck, RefusesCheck};
ghost use Rattle.command_traces.specs.check.Answers.{Confirms, Objects, check_text};

use board_tree::Tree;
use history_model::Event;
use judge_check::{Verdict, check};
use program_input::read_tree_trace;
use program_status::Status;
use std::alloc::{AllocError, Global};

/// The line for a trace text of a complete run.
pub fn answer_check(alloc: Global, input: &[u8]) -> Result<Vec<u8>, Status>
    requires { length input.now < 2 ^ 31 }
    ensures ok { IfOk result (λ text. AnswersCheck input.now text.items) }
    ensures err { IfErr result (RefusesCheck input.now) }
{
    let read = read_tree_trace(alloc, input)?;
    answer_events(alloc, &read.tree, read.events.as_slice())
}

fn answer_events(alloc: Global, tree: &Tree, events: &[Event]) -> Result<Vec<u8>, Status>
    requires { length events.now < 2 ^ 32 }
    ensures ok { IfOk result (λ text. Confirms tree.now events.now text.items) }
    ensures err { IfErr result (Objects tree.now events.now) }
{
    match check(alloc, tree, events) {
        Ok(Verdict::Complete) => verdict_text(alloc, events.len(), tree.bound()),
        Ok(Verdict::Incomplete { left }) => Err(Status::Incomplete { left }),
        Ok(Verdict::NotRun { event, why }) => Err(Status::NotRun { event, why }),
        Err(_) => Err(Status::NoMemory),
    }
}

fn verdict_text(alloc: Global, events: usize, bound: u64) -> Result<Vec<u8>, Status>
    ensures ok { IfOk result (λ text. text.items ≡ check_text events bound) }
    ensures err { IfErr result (λ status. status ≡ Status.NoMemory) }
{
    let mut text = String::new(alloc);
    match print_verdict(&mut text, events, bound) {
        Ok(()) => Ok(text.into_bytes()),
        Err(_) => Err(Status::NoMemory),
    }
}

fn print_verdict(text: &mut String, events: usize, bound: u64) -> Result<(), AllocError>
    ensures { OnOk result (string_bytes text.new
        ≡ string_bytes text.old ++ check_text events bound) }
{
    writeln!(text, "complete run of {events} events, bound {bound}")
}

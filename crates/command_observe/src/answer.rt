ghost use Rattle.std.specs.Prelude.{◌≡◌, ◌<◌, ◌^◌, ℕ, length, IfOk, IfErr, IsTrue};
ghost use Rattle.board_model.specs.WellFormed.{is_well_formed};
ghost use Rattle.command_observe.specs.Answers.{AnswersObserve, AnswersActs, RefusesObserve};
ghost use Rattle.command_observe.specs.Answers.{TellsRun, TellsActs};
ghost use Rattle.command_observe.specs.Judging.{IsUntold, ending_of};

use crate::drafting::line_at;
use crate::holding::holds_acts;
use crate::reading::{TreeLog, read_tree_log};
use crate::telling::run_told;
use crate::writing::{Draft, draft_acts, text_of_run};
use observe_order::ActsVerdict;
use observe_told::Log;
use program_status::{Answered, Status};
use std::alloc::Global;

/// The trace of a run that a log tells of, with all arrivals as early as can be. The input has
/// fewer than 2^31 bytes.
#[tactic(auto, using(crate::proofs::AnswerLemmas::read_refuses))]
pub fn answer_observe(alloc: Global, input: &[u8]) -> Result<Vec<u8>, Status>
    requires { length input.now < 2 ^ 31 }
    ensures ok { IfOk result (λ text. AnswersObserve input.now text.items) }
    ensures err { IfErr result (RefusesObserve input.now) }
{
    let read = read_tree_log(alloc, input)?;
    text_of_log(alloc, read)
}

/// The same, where the input is let go as soon as it is read, so that a line takes fewer bytes.
#[tactic(auto, using(crate::proofs::AnswerLemmas::read_refuses))]
pub fn answer_observe_owned(alloc: Global, input: Vec<u8>) -> Result<Vec<u8>, Status>
    requires { length input.items < 2 ^ 31 }
    ensures ok { IfOk result (λ text. AnswersObserve input.items text.items) }
    ensures err { IfErr result (RefusesObserve input.items) }
{
    let found = read_tree_log(alloc, input.as_slice());
    drop(input);
    let read = found?;
    text_of_log(alloc, read)
}

/// The trace of a run that the log tells of. The log is let go before its text is written.
fn text_of_log(alloc: Global, read: TreeLog) -> Result<Vec<u8>, Status>
    requires { IsTrue (is_well_formed read.log.board) }
    ensures ok { IfOk result (λ text. TellsRun read.log text.items) }
    ensures err { IfErr result IsUntold }
{
    let told = run_told(alloc, &read);
    drop(read);
    let found = told?;
    text_of_run(alloc, found)
}

/// The trace of the acts that a log tells of, without arrivals: those of a run, or of one up to an
/// act that is not allowed, and all others behind it.
#[tactic(auto, using(crate::proofs::AnswerLemmas::read_refuses))]
pub fn answer_acts(alloc: Global, input: &[u8]) -> Result<Answered, Status>
    requires { length input.now < 2 ^ 31 }
    ensures ok { IfOk result (λ answer. AnswersActs input.now answer.text.items answer.ending) }
    ensures err { IfErr result (RefusesObserve input.now) }
{
    let read = read_tree_log(alloc, input)?;
    let answer = acts_text(alloc, &read);
    drop(read);
    answer
}

#[tactic(auto, using(crate::proofs::AnswerLemmas::ends_by, crate::proofs::AnswerLemmas::is_untold))]
fn acts_text(alloc: Global, read: &TreeLog) -> Result<Answered, Status>
    requires { IsTrue (is_well_formed read.now.log.board) }
    ensures ok { IfOk result
        (λ answer. TellsActs read.now.log answer.text.items answer.ending) }
    ensures err { IfErr result IsUntold }
{
    let Draft { text, lines } = draft_acts(alloc, read)?;
    let verdict = holds_acts(alloc, &read.log, text.as_slice(), lines.as_slice())?;
    let ending = ending_of(&read.log, lines.as_slice(), verdict);
    Ok(Answered { text, ending })
}

/// The ending that tells the verdict, where the acts are of the lines at these places of the log.
fn ending_of(log: &Log, lines: &[u32], verdict: ActsVerdict) -> Status
    ensures { (line : ℕ) × (result ≡ ending_of line verdict) }
{
    match verdict {
        ActsVerdict::IsRun => Status::Done,
        ActsVerdict::Refused { event, why } => Status::ToldTo {
            line: line_at(log, lines, event),
            why,
        },
    }
}

//! The run that a log tells of, with what is said of it.
ghost use Rattle.std.specs.Prelude.{◌<◌, ◌^◌, length, string_bytes, IfOk, IfErr, IsTrue};
ghost use Rattle.board_model.specs.WellFormed.{is_well_formed};
ghost use Rattle.law_early.specs.Early.{acts_of};
ghost use Rattle.observe_log.specs.Told.{Tells};
ghost use Rattle.observe_told.specs.Woven.{events_of, IsWhole};
ghost use Rattle.trace_roundtrip.specs.Comments.{AreComments};
ghost use Rattle.command_observe.specs.Judging.{IsRunOf, IsUntold};

use crate::drafting::{LogTold, Untold, told_by, unheld};
use crate::reading::TreeLog;
use board_tree::Tree;
use history_model::Event;
use observe_log::is_told;
use observe_order::comments;
use observe_told::{Log, Unseen, Woven};
use pci_command::NoMemory;
use program_status::{LogRefusal, Status};
use std::alloc::Global;
use trace_roundtrip::are_comments;

/// A run of the board of a tree, and what is said of it.
#[derive(Drop)]
pub(crate) struct RunOfLog {
    pub(crate) tree: Tree,
    pub(crate) run: Woven,
    pub(crate) said: String,
}

/// The run that the log tells of.
#[tactic(auto, using(crate::proofs::AnswerLemmas::is_untold))]
pub(crate) fn run_told(alloc: Global, read: &TreeLog) -> Result<RunOfLog, Status>
    requires { IsTrue (is_well_formed read.now.log.board) }
    ensures ok { IfOk result (IsRunOf read.now.log) }
    ensures err { IfErr result IsUntold }
{
    let told = told_by(alloc, read)?;
    match said_of_run(alloc, &read.log, &told) {
        Ok(said) => {
            let LogTold {
                tree,
                unseen,
                ordered,
            } = told;
            drop(unseen);
            let run = ordered.run;
            Ok(RunOfLog { tree, run, said })
        }
        Err(untold) => {
            drop(told);
            Err(Status::from(untold))
        }
    }
}

/// What is said of what was found, where none of its acts was refused and the log tells of them.
#[tactic(auto, using(crate::proofs::AnswerLemmas::few_events, crate::proofs::AnswerLemmas::told_woven))]
fn said_of_run(alloc: Global, log: &Log, told: &LogTold) -> Result<String, Untold>
    requires formed { IsTrue (is_well_formed log.now.board) }
    requires whole { IsWhole told.now.ordered.run }
    ensures few { IfOk result (λ _. length (events_of told.now.ordered.run) < 2 ^ 32) }
    ensures told { IfOk result
        (λ _. Tells log.now told.now.tree (acts_of (events_of told.now.ordered.run))) }
    ensures comments { IfOk result (λ said. AreComments (string_bytes said)) }
{
    let ordered = &told.ordered;
    if let Some(refused) = ordered.refused() {
        return Err(Untold::NotTold {
            line: log.word_of(refused.line).line,
            refusal: LogRefusal::Cause(refused.why),
        });
    }
    if ordered.run.count() > 0xffff_ffff {
        return Err(unheld(log));
    }
    let (acts, lines) = (ordered.run.acts.as_slice(), ordered.lines.as_slice());
    if !is_told_by(alloc, log, &told.tree, acts, lines)? {
        return Err(unheld(log));
    }
    said_of(alloc, log, &told.tree, &told.unseen)
}

/// What is said of what was found.
pub(crate) fn said_of(
    alloc: Global,
    log: &Log,
    tree: &Tree,
    unseen: &Unseen,
) -> Result<String, Untold>
    ensures { IfOk result (λ said. AreComments (string_bytes said)) }
{
    let said = comments(alloc, log, tree.board(), unseen)?;
    if are_comments(said.as_bytes()) {
        Ok(said)
    } else {
        Err(unheld(log))
    }
}

/// Whether the log tells of the acts of these events, where the acts are of the lines at these
/// places of the log.
#[tactic(auto, using(crate::proofs::AnswerLemmas::told_by))]
pub(crate) fn is_told_by(
    alloc: Global,
    log: &Log,
    tree: &Tree,
    events: &[Event],
    lines: &[u32],
) -> Result<bool, NoMemory>
    requires { IsTrue (is_well_formed log.now.board) }
    ensures { IfOk result (λ told. IsTrue told → Tells log.now tree.now (acts_of events.now)) }
{
    let told = is_told(alloc, log, tree.board(), events, lines)?;
    Ok(told)
}

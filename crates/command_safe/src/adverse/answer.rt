ghost use Rattle.std.specs.Prelude.{◌<◌, ◌^◌, length, IfOk, IfErr, MatchOption};
ghost use Rattle.judge_adverse.specs.Runs.{IsPair};
ghost use Rattle.command_safe.specs.adverse.Answers.{AnswersAdverse, RefusesAdverse};
ghost use Rattle.command_safe.specs.adverse.Answers.{NamesPair, IsNoPair, ShowsPair};
ghost use Rattle.command_safe.specs.adverse.Answers.{ShowsAdverse, HidesPair, HidesAs};

use board_tree::Tree;
use judge_adverse::{Pair, adverse_run, read_of, write_of};
use program_input::read_protocol;
use program_status::Status;
use std::alloc::Global;
use trace_roundtrip::run_text;

/// The trace of a complete run of a board in which the one operation, a read, reads before the
/// other, a write, has begun.
pub fn answer_adverse(
    alloc: Global,
    input: &[u8],
    read: &[u8],
    write: &[u8],
) -> Result<Vec<u8>, Status>
    requires { length input.now < 2 ^ 31 }
    ensures ok { IfOk result (λ text. AnswersAdverse read.now write.now input.now text.items) }
    ensures err { IfErr result (RefusesAdverse read.now write.now input.now) }
{
    match read_protocol(alloc, input) {
        Ok(tree) => answer_tree(alloc, &tree, read, write),
        Err(status) => Err(status),
    }
}

/// The same of the tree that was read.
fn answer_tree(alloc: Global, tree: &Tree, read: &[u8], write: &[u8]) -> Result<Vec<u8>, Status>
    ensures ok { IfOk result (λ text. ShowsAdverse tree.now read.now write.now text.items) }
    ensures err { IfErr result (HidesAs tree.now read.now write.now) }
{
    match pair_of(tree, read, write) {
        Some(pair) => answer_pair(alloc, tree, pair),
        None => Err(Status::NotShown),
    }
}

/// The same of a read and a write of it.
fn answer_pair(alloc: Global, tree: &Tree, pair: Pair) -> Result<Vec<u8>, Status>
    requires { IsPair tree.now pair }
    ensures ok { IfOk result (λ text. ShowsPair tree.now pair text.items) }
    ensures err { IfErr result (HidesPair tree.now pair) }
{
    match adverse_run(alloc, tree, pair) {
        Ok(Some(events)) => match run_text(alloc, tree.board(), events.as_slice()) {
            Ok(text) => Ok(text.into_vec()),
            Err(_) => Err(Status::NoMemory),
        },
        Ok(None) => Err(Status::NotShown),
        Err(_) => Err(Status::NoMemory),
    }
}

/// The read and the write that the words name. There are none exactly where a word names none.
fn pair_of(tree: &Tree, read: &[u8], write: &[u8]) -> Option<Pair>
    ensures { MatchOption result (IsNoPair tree.now read.now write.now)
        (NamesPair tree.now read.now write.now) }
{
    let read = read_of(tree, read)?;
    let write = write_of(tree, write)?;
    Some(Pair { read, write })
}

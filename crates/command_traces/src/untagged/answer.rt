ghost use Rattle.std.specs.Prelude.{◌≡◌, ◌<◌, ◌^◌, ◌↔◌, IsTrue, length, IfOk, IfErr};
ghost use Rattle.law_untagged.specs.Apart.{Apart};
ghost use Rattle.command_traces.specs.untagged.Answers.{AnswersUntagged, RefusesUntagged};
ghost use Rattle.command_traces.specs.untagged.Answers.{Tells, RefusesEvents};

use crate::untagged::text::untagged_text;
use board_tree::Tree;
use history_model::Event;
use program_input::read_tree_trace;
use program_status::Status;
use std::alloc::Global;
use untagged_apart::apart;
use untagged_check::{Untagged, check_untagged};

/// The lines for a trace text of a run on bridges that keep no local master: how many events it
/// has, its stale reads and how many they are, and whether masters are apart on its board.
pub fn answer_untagged(alloc: Global, input: &[u8]) -> Result<Vec<u8>, Status>
    requires { length input.now < 2 ^ 31 }
    ensures ok { IfOk result (λ text. AnswersUntagged input.now text.items) }
    ensures err { IfErr result (RefusesUntagged input.now) }
{
    let read = read_tree_trace(alloc, input)?;
    answer_events(alloc, &read.tree, read.events.as_slice())
}

fn answer_events(alloc: Global, tree: &Tree, events: &[Event]) -> Result<Vec<u8>, Status>
    requires { length events.now < 2 ^ 32 }
    ensures ok { IfOk result (λ text. Tells tree.now events.now text.items) }
    ensures err { IfErr result (RefusesEvents tree.now events.now) }
{
    match check_untagged(alloc, tree, events) {
        Ok(Untagged::Run { stale }) => {
            let apart = are_apart(alloc, tree)?;
            untagged_text(alloc, tree.board(), events.len(), stale.as_slice(), apart)
        }
        Ok(Untagged::NotRun { event, why }) => Err(Status::NotRun { event, why }),
        Err(_) => Err(Status::NoMemory),
    }
}

fn are_apart(alloc: Global, tree: &Tree) -> Result<bool, Status>
    ensures ok { IfOk result (λ apart. IsTrue apart ↔ Apart tree.now) }
    ensures err { IfErr result (λ status. status ≡ Status.NoMemory) }
{
    match apart(alloc, tree) {
        Ok(apart) => Ok(apart),
        Err(_) => Err(Status::NoMemory),
    }
}

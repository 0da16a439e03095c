ghost use Rattle.std.specs.Prelude.{◌<◌, ◌^◌, IfOk, OnOk, length};
ghost use Rattle.history_model.specs.Runs.{Run, history_of};

use board_tree::{Tree, validate};
use history_model::Event;
use judge_check::{Verdict, check};
use pci_command::List;
use std::alloc::Global;
use std::test::Fail;
use trace_reader::read_trace;

/// The valid board of a trace text, and its events.
pub(crate) fn worked(alloc: Global, text: &[u8]) -> Result<(Tree, List<Event>), Fail>
    ensures { IfOk result (λ read. length read.1 < 2 ^ 32) }
{
    if text.len() > 1000 {
        return Err("too long".into());
    }
    let (board, events) = read_trace(alloc, text)?;
    let tree = validate(board).ok().ok_or("not valid")?;
    Ok((tree, events))
}

/// The board of a trace, and its events, which are a complete run.
pub(crate) fn complete_run(alloc: Global, text: &[u8]) -> Result<(Tree, List<Event>), Fail>
    ensures { IfOk result (λ read. Run read.0 (history_of read.1)) }
{
    let (tree, events) = worked(alloc, text)?;
    is_complete(alloc, &tree, events.as_slice())?;
    Ok((tree, events))
}

fn is_complete(alloc: Global, tree: &Tree, events: &[Event]) -> Result<(), Fail>
    requires { length events.now < 2 ^ 32 }
    ensures { OnOk result (Run tree.now (history_of events.now)) }
{
    match check(alloc, tree, events)? {
        Verdict::Complete => Ok(()),
        Verdict::Incomplete { .. } | Verdict::NotRun { .. } => Err("no complete run".into()),
    }
}

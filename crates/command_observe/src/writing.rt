//! The texts that are written for a log, with what is said of it behind the first line of the
//! board.
ghost use Rattle.std.specs.Prelude.{◌≡◌, ◌<◌, ◌^◌, length, string_bytes, Ok, IfOk, IfErr, IsTrue};
ghost use Rattle.std.specs.List.{All};
ghost use Rattle.board_model.specs.Valid.{IsValid};
ghost use Rattle.trace_text.specs.Events.{HasLine};
ghost use Rattle.trace_reader.specs.Traces.{trace_read};
ghost use Rattle.trace_roundtrip.specs.Comments.{AreComments};
ghost use Rattle.trace_roundtrip.specs.Printed.{IsTraceOf};
ghost use Rattle.observe_told.specs.Woven.{events_of};
ghost use Rattle.observe_order.specs.Going.{EndsLanded};
ghost use Rattle.program_status.specs.declared.status.Status.TheVariants.{NoMemory};

use crate::drafting::{LogTold, Untold, told_by, unheld};
use crate::reading::TreeLog;
use crate::telling::{RunOfLog, said_of};
use board_model::Board;
use board_tree::Tree;
use history_model::Event;
use observe_order::Ordered;
use observe_told::{ActsTold, Log, Unseen, Woven};
use pci_command::List;
use program_status::Status;
use std::alloc::Global;
use trace_roundtrip::{run_text, with_comments};
use trace_text::{has_line, print_trace};

/// A trace text of acts, and of which line of the log each of them is, by its place from 0.
#[derive(Drop)]
pub(crate) struct Draft {
    pub(crate) text: Vec<u8>,
    pub(crate) lines: List<u32>,
}

/// The trace text of the run, which is read as this run.
pub(crate) fn text_of_run(alloc: Global, found: RunOfLog) -> Result<Vec<u8>, Status>
    requires run { EndsLanded found.tree found.run }
    requires few { length (events_of found.run) < 2 ^ 32 }
    requires comments { AreComments (string_bytes found.said) }
    ensures valid { IsValid found.tree }
    ensures read { IfOk result
        (λ text. trace_read text.items ≡ Ok (found.tree, events_of found.run)) }
    ensures err { IfErr result (λ status. status ≡ NoMemory) }
{
    let RunOfLog { tree, run, said } = found;
    let _valid = tree.board();
    let printed = printed_run(alloc, &tree, run);
    drop(tree);
    let text = printed?;
    let whole = with_comments(alloc, text.as_slice(), said.as_bytes())?;
    Ok(whole)
}

/// The same without comments. What the run was kept as is let go before it is written.
fn printed_run(alloc: Global, tree: &Tree, run: Woven) -> Result<List<u8>, Status>
    requires run { EndsLanded tree.now run }
    requires few { length (events_of run) < 2 ^ 32 }
    ensures ok { IfOk result (IsTraceOf tree.now (events_of run)) }
    ensures err { IfErr result (λ status. status ≡ NoMemory) }
{
    let events = run.events(alloc);
    drop(run);
    let Ok(events) = events else {
        return Err(Status::NoMemory);
    };
    match run_text(alloc, tree.board(), events.as_slice()) {
        Ok(text) => Ok(text),
        Err(_) => Err(Status::NoMemory),
    }
}

/// The trace of the acts that the log tells of, of which nothing is claimed here.
pub(crate) fn draft_acts(alloc: Global, read: &TreeLog) -> Result<Draft, Untold> {
    let LogTold {
        tree,
        unseen,
        ordered,
    } = told_by(alloc, read)?;
    let (acts, lines) = all_acts(ordered);
    let text = text_of_acts(alloc, &read.log, &tree, &unseen, acts.as_slice());
    drop(tree);
    drop(unseen);
    let text = text?;
    Ok(Draft { text, lines })
}

/// All acts, and the places of their lines in the log.
fn all_acts(ordered: Ordered) -> (List<Event>, List<u32>) {
    let Ordered {
        run,
        lines,
        stopped,
    } = ordered;
    match stopped {
        Some(ActsTold { acts, lines, .. }) => (acts, lines),
        None => {
            let Woven { acts, .. } = run;
            (List::from_vec(acts), List::from_vec(lines))
        }
    }
}

/// The trace text of these acts, if each of them has a line.
fn text_of_acts(
    alloc: Global,
    log: &Log,
    tree: &Tree,
    unseen: &Unseen,
    acts: &[Event],
) -> Result<Vec<u8>, Untold> {
    let board = tree.board();
    if !are_printable(board, acts) {
        return Err(unheld(log));
    }
    let said = said_of(alloc, log, tree, unseen)?;
    let text = print_trace(alloc, board, acts)?;
    let whole = with_comments(alloc, text.as_slice(), said.as_bytes())?;
    Ok(whole)
}

/// Whether each event has a line, and there are not too many.
fn are_printable(board: &Board, events: &[Event]) -> bool
    ensures { IsTrue result → All (HasLine board.now) events.now × (length events.now < 2 ^ 32) }
{
    events.len() <= 0xffff_ffff && events.iter().all(|event| has_line(board, event))
}

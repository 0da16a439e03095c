//! Whether a text of acts that was written is what a log tells: it is read again, as any trace is,
//! and nothing is known of it but what is found out here.
ghost use Rattle.std.specs.Prelude.{◌<◌, ◌^◌, length, IfOk, IsTrue};
ghost use Rattle.board_model.specs.WellFormed.{is_well_formed};
ghost use Rattle.program_input.specs.Traces.{ReadsTree};
ghost use Rattle.command_observe.specs.Judging.{IsJudged, HoldsActs};

use crate::drafting::{Untold, unheld};
use crate::telling::is_told_by;
use observe_order::{ActsVerdict, verdict_of};
use observe_told::Log;
use program_input::{TreeTrace, read_tree_trace};
use program_status::Status;
use std::alloc::Global;

/// Whether a run has the acts whose text this is, if the log tells of them. The acts are of the
/// lines at these places of the log.
pub(crate) fn holds_acts(
    alloc: Global,
    log: &Log,
    text: &[u8],
    lines: &[u32],
) -> Result<ActsVerdict, Untold>
    requires { IsTrue (is_well_formed log.now.board) }
    ensures { IfOk result (HoldsActs log.now text.now) }
{
    let read = read_again(alloc, log, text)?;
    let verdict = verdict_on(alloc, log, &read, lines);
    drop(read);
    verdict
}

/// Whether a run has the acts, where the log tells of them.
fn verdict_on(
    alloc: Global,
    log: &Log,
    read: &TreeTrace,
    lines: &[u32],
) -> Result<ActsVerdict, Untold>
    requires formed { IsTrue (is_well_formed log.now.board) }
    requires few { length read.now.events < 2 ^ 32 }
    ensures { IfOk result (IsJudged log.now read.now) }
{
    let events = read.events.as_slice();
    if !is_told_by(alloc, log, &read.tree, events, lines)? {
        return Err(unheld(log));
    }
    Ok(verdict_of(alloc, &read.tree, events)?)
}

/// The trace that the text is read as.
fn read_again(alloc: Global, log: &Log, text: &[u8]) -> Result<TreeTrace, Untold>
    ensures { IfOk result (ReadsTree text.now) }
{
    if text.len() >= 0x8000_0000 {
        return Err(unheld(log));
    }
    match read_tree_trace(alloc, text) {
        Ok(read) => Ok(read),
        Err(Status::NoMemory) => Err(Untold::NoMemory),
        Err(_) => Err(unheld(log)),
    }
}

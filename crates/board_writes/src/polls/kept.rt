ghost use Rattle.std.specs.Prelude.{◌≡◌, ◌&&◌, IfOk};
ghost use Rattle.std.specs.List.{list_all, list_any};
ghost use Rattle.board_tree.specs.Decodable.{IsDecodable};
ghost use Rattle.safe_model.specs.Raisers.{is_plain};
ghost use Rattle.board_writes.specs.Looks.{IsOrdered, TellAlike, any_before, is_reached_in};
ghost use Rattle.board_writes.specs.Polls.{IsPollOrNone, told_in, raisers_in, raised_in};
ghost use Rattle.board_writes.specs.Polls.{is_clean_write, raises_it, staying};
ghost use Rattle.board_writes.specs.Writes.{ListsWrites, writes_at};

use crate::known::ClockTable;
use crate::polls::awaited::{Awaited, awaited_by};
use crate::polls::looks::is_any_before;
use crate::polls::stays::{is_any_first_before, is_any_reached, raisers_among};
use crate::writers::{WordWrite, Writers, stretches_of};
use board_model::Board;
use pci_command::{NoMemory, OpId};
use std::alloc::Global;
use std::marker::Model;

/// What is kept of a poll that has a word: what it waits for, whether what the word opens as meets
/// it, and whether it is firm. Which writes raise it is listed with the writes, once for all polls
/// that wait for the same.
#[derive(Debug, Drop)]
pub(crate) struct KeptPoll {
    awaited: Awaited,
    opens: bool,
    firm: bool,
}

impl Model for KeptPoll {
    ghost use Rattle.board_writes.specs.Polls.{PollFacts};

    ghost Value = { PollFacts };

    ghost view = { λ k. record {
      awaited = k.awaited;
      opens = k.opens;
      firm = k.firm;
    } };
}

/// What is kept of an operation: nothing where it is no poll that has a word.
pub(crate) fn kept_of(board: &Board, writers: &Writers, op: OpId) -> Option<KeptPoll>
    requires decodable { IsDecodable board.now }
    requires lists { ListsWrites board.now writers.now }
    ensures { IsPollOrNone board.now op result }
{
    match awaited_by(board, op) {
        Some(awaited) => Some(KeptPoll {
            awaited,
            opens: awaited.opens(board),
            firm: is_firm(&awaited, writers),
        }),
        None => None,
    }
}

/// Whether it is known what may bring what is waited for.
fn is_firm(awaited: &Awaited, writers: &Writers) -> bool
    ensures { result ≡ (is_plain awaited.now.word.space
        && list_all (is_clean_write awaited.now) (writes_at awaited.now.word writers.now)) }
{
    awaited.is_plain() && are_clean(awaited, writers)
}

/// Whether each write of the dword is clean, as it is kept where it is.
fn are_clean(awaited: &Awaited, writers: &Writers) -> bool
    ensures { result ≡
        list_all (is_clean_write awaited.now) (writes_at awaited.now.word writers.now) }
{
    match writers.stretches(awaited.word) {
        Some(writes) => writes.are_clean(awaited),
        None => is_each_clean(awaited, writers.of_word(awaited.word)),
    }
}

fn is_each_clean(awaited: &Awaited, writes: &[WordWrite]) -> bool
    ensures { result ≡ list_all (is_clean_write awaited.now) writes.now }
{
    writes.iter().all(|write| awaited.is_clean(write))
}

/// Whether a write of the dword comes before the poll.
fn is_behind_some(awaited: &Awaited, table: &ClockTable, writers: &Writers, poll: OpId) -> bool
    ensures { result ≡ any_before table.now poll (writes_at awaited.now.word writers.now) }
{
    match writers.stretches(awaited.word) {
        Some(writes) => is_any_first_before(table, poll, writes.runs()),
        None => is_any_before(table, poll, writers.of_word(awaited.word)),
    }
}

/// Of the raisers of a poll those that tell it what all do.
fn raisers_for(
    alloc: Global,
    awaited: Awaited,
    table: &ClockTable,
    writers: &Writers,
    poll: OpId,
) -> Result<Vec<WordWrite>, NoMemory>
    requires { IsOrdered table.now }
    ensures { IfOk result (λ found. TellAlike table.now poll found.items
        (staying table.now poll awaited (writes_at awaited.word writers.now)
        (writes_at awaited.word writers.now))) }
{
    match (writers.stretches(awaited.word), writers.raising(awaited)) {
        (Some(writes), Some(raising)) => {
            let found = raisers_among(alloc, table, poll, awaited, writes, raising)?;
            Ok(found)
        }
        _ => {
            let words = writers.of_word(awaited.word);
            let found = raisers_anew(alloc, awaited, table, words, poll)?;
            Ok(found)
        }
    }
}

/// The same where the writes of the dword are not listed: they are put together anew.
fn raisers_anew(
    alloc: Global,
    awaited: Awaited,
    table: &ClockTable,
    words: &[WordWrite],
    poll: OpId,
) -> Result<Vec<WordWrite>, NoMemory>
    requires { IsOrdered table.now }
    ensures { IfOk result (λ found. TellAlike table.now poll found.items
        (staying table.now poll awaited words.now words.now)) }
{
    let writes = stretches_of(alloc, words)?;
    let found = raisers_among(alloc, table, poll, awaited, &writes, &writes)?;
    Ok(found)
}

/// Whether some run may come to one of them.
fn is_raised_for(
    alloc: Global,
    awaited: Awaited,
    table: &ClockTable,
    writers: &Writers,
    poll: OpId,
) -> Result<bool, NoMemory>
    requires { IsOrdered table.now }
    ensures { IfOk result (λ raised. raised ≡ list_any (λ f. raises_it awaited f && is_reached_in
        table.now poll (writes_at awaited.word writers.now) f)
        (writes_at awaited.word writers.now)) }
{
    match (writers.stretches(awaited.word), writers.raising(awaited)) {
        (Some(writes), Some(raising)) => {
            Ok(is_any_reached(table, poll, awaited, writes, raising))
        }
        _ => {
            let words = writers.of_word(awaited.word);
            let raised = is_raised_anew(alloc, awaited, table, words, poll)?;
            Ok(raised)
        }
    }
}

fn is_raised_anew(
    alloc: Global,
    awaited: Awaited,
    table: &ClockTable,
    words: &[WordWrite],
    poll: OpId,
) -> Result<bool, NoMemory>
    requires { IsOrdered table.now }
    ensures { IfOk result (λ raised. raised ≡ list_any (λ f. raises_it awaited f
        && is_reached_in table.now poll words.now f) words.now) }
{
    let writes = stretches_of(alloc, words)?;
    Ok(is_any_reached(table, poll, awaited, &writes, &writes))
}

impl KeptPoll {
    /// Whether the poll is told something by what it sees.
    pub(crate) fn is_told(&self, table: &ClockTable, writers: &Writers, poll: OpId) -> bool
        ensures { result ≡
            told_in table.now poll (writes_at self.now.awaited.word writers.now) self.now }
    {
        self.firm && (!self.opens || is_behind_some(&self.awaited, table, writers, poll))
    }

    /// Of its raisers those that tell it what all do that are not left out.
    pub(crate) fn raisers(
        &self,
        alloc: Global,
        table: &ClockTable,
        writers: &Writers,
        poll: OpId,
    ) -> Result<Vec<WordWrite>, NoMemory>
        requires { IsOrdered table.now }
        ensures { IfOk result (λ found. TellAlike table.now poll found.items
            (raisers_in table.now poll (writes_at self.now.awaited.word writers.now) self.now)) }
    {
        raisers_for(alloc, self.awaited, table, writers, poll)
    }

    /// Whether some run may come to one of them.
    pub(crate) fn is_raised(
        &self,
        alloc: Global,
        table: &ClockTable,
        writers: &Writers,
        poll: OpId,
    ) -> Result<bool, NoMemory>
        requires { IsOrdered table.now }
        ensures { IfOk result (λ yes. yes ≡
            raised_in table.now poll (writes_at self.now.awaited.word writers.now) self.now) }
    {
        is_raised_for(alloc, self.awaited, table, writers, poll)
    }
}

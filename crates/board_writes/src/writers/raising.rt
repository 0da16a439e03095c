ghost use Rattle.std.specs.Prelude.{◌≡◌, ◌++◌, IfOk, IfSome, OnOk};
ghost use Rattle.std.specs.List.{filter};
ghost use Rattle.board_tree.specs.Decodable.{IsDecodable};
ghost use Rattle.board_writes.specs.Polls.{raises_it};
ghost use Rattle.board_writes.specs.Stretches.{joined};
ghost use Rattle.board_writes.specs.Raising.{KeepsRaising};
ghost use Rattle.board_writes.specs.Writes.{writes_at, KeepsLists};

use crate::list::polls_of;
use crate::polls::{Awaited, awaited_by};
use crate::writers::run::Run;
use crate::writers::stretches::{Stretches, stretches_of};
use crate::writers::words::Words;
use crate::writers::write::WordWrite;
use audit_clocks::WordTable;
use board_model::Board;
use board_tree::Tree;
use pci_command::{NoMemory, OpId};
use std::alloc::Global;
use std::collections::{HashMap, HashSet};
use std::marker::Model;

/// A dword of fewer writes is looked through for each poll.
const MANY: usize = 256;
/// How many writes that raise the same are listed at most.
const FEW: usize = 16;
/// How many lists and writes in them are kept at most.
const MOST_KEPT: usize = 65_536;

/// Of what polls wait for the writes of its dword that raise it, as stretches: kept of dwords with
/// many writes few of which raise it, as long as they are not too many in all; and of what it is known
/// that there are more. So a poll is looked at without looking through all writes of its dword.
#[derive(Debug, Drop)]
pub(crate) struct Raising {
    lists: HashMap<Awaited, Stretches>,
    crowded: HashSet<Awaited>,
    kept: usize,
}

impl Model for Raising {
    ghost use Rattle.std.specs.Prelude.{List};
    ghost use Rattle.board_writes.specs.declared.polls.awaited.Awaited.{Awaited};
    ghost use Rattle.board_writes.specs.declared.writers.write.WordWrite.{WordWrite};

    ghost Value = { List (Awaited × List WordWrite) };

    ghost view = { λ k. k.lists.entries };
}

impl Raising {
    ghost use Rattle.std.specs.Prelude.{[]};
    ghost use Rattle.std.specs.Option.{option_copied};
    ghost use Rattle.board_writes.specs.Raising.{found_for};

    /// Nothing is listed.
    pub(crate) fn new(alloc: Global) -> Raising
        ensures { result ≡ [] }
    {
        Raising {
            lists: HashMap::new(alloc),
            crowded: HashSet::new(alloc),
            kept: 0,
        }
    }

    /// Those that raise what is awaited, where they are listed.
    pub(crate) fn of(&self, awaited: Awaited) -> Option<&Stretches>
        ensures { option_copied result ≡ found_for awaited self.now }
    {
        self.lists.get(&awaited)
    }

    /// Those that raise what is awaited are listed, where that brings something.
    fn keep(
        &mut self,
        alloc: Global,
        words: &Words,
        list: &Stretches,
        awaited: Awaited,
    ) -> Result<(), NoMemory>
        requires kept { KeepsRaising words.now self.old }
        requires list { list.now ≡ writes_at awaited.word words.now }
        ensures { OnOk result (KeepsRaising words.now self.new) }
    {
        let count = words.of_word(awaited.word).len();
        if count < MANY || self.kept >= MOST_KEPT || self.is_known(awaited) {
            return Ok(());
        }
        match raising_in(alloc, awaited, list.runs())? {
            Some(raising) => self.put(alloc, words, awaited, raising.as_slice()),
            None => self.crowd(awaited),
        }
    }

    /// Whether it was looked for those that raise it.
    fn is_known(&self, awaited: Awaited) -> bool {
        self.lists.contains_key(&awaited) || self.crowded.contains(&awaited)
    }

    /// More than a few raise it.
    fn crowd(&mut self, awaited: Awaited) -> Result<(), NoMemory>
        ensures { self.new ≡ self.old }
    {
        self.kept = self.kept.saturating_add(1);
        self.crowded.insert(awaited)?;
        Ok(())
    }

    /// These are listed for it.
    fn put(
        &mut self,
        alloc: Global,
        words: &Words,
        awaited: Awaited,
        raising: &[WordWrite],
    ) -> Result<(), NoMemory>
        requires kept { KeepsRaising words.now self.old }
        requires are { raising.now ≡
            filter (raises_it awaited) (writes_at awaited.word words.now) }
        ensures { OnOk result (KeepsRaising words.now self.new) }
    {
        let list = stretches_of(alloc, raising)?;
        self.lists.insert(awaited, list)?;
        self.kept = self.kept.saturating_add(1).saturating_add(raising.len());
        Ok(())
    }
}

/// Those that raise what is awaited among the writes of these stretches, if they are few.
fn raising_in(
    alloc: Global,
    awaited: Awaited,
    runs: &[Run],
) -> Result<Option<Vec<WordWrite>>, NoMemory>
    ensures { IfOk result (λ found. IfSome found (λ raising.
        raising.items ≡ filter (raises_it awaited) (joined runs.now))) }
{
    let mut raising = Vec::new(alloc);
    for run in runs {
        if !run.put_raising(&mut raising, awaited, FEW)? {
            return Ok(None);
        }
    }
    Ok(Some(raising))
}

/// What is listed so of a board, by its writes, as stretches where their dword is polled.
pub(crate) fn raising_of(
    alloc: Global,
    tree: &Tree,
    words: &Words,
    lists: &WordTable<Stretches>,
) -> Result<Raising, NoMemory>
    requires { KeepsLists words.now lists.now }
    ensures { IfOk result (KeepsRaising words.now) }
{
    let polls = polls_of(alloc, tree)?;
    let mut raising = Raising::new(alloc);
    keep_all(
        &mut raising,
        alloc,
        tree.board(),
        words,
        lists,
        polls.as_slice(),
    )?;
    Ok(raising)
}

/// The same of these polls.
fn keep_all(
    raising: &mut Raising,
    alloc: Global,
    board: &Board,
    words: &Words,
    lists: &WordTable<Stretches>,
    polls: &[OpId],
) -> Result<(), NoMemory>
    requires decodable { IsDecodable board.now }
    requires lists { KeepsLists words.now lists.now }
    requires kept { KeepsRaising words.now raising.old }
    ensures { OnOk result (KeepsRaising words.now raising.new) }
{
    for poll in polls {
        if let Some(awaited) = awaited_by(board, *poll) {
            keep(raising, alloc, words, lists, awaited)?;
        }
    }
    Ok(())
}

/// The same of what is awaited, where the writes of its dword stand as stretches.
fn keep(
    raising: &mut Raising,
    alloc: Global,
    words: &Words,
    lists: &WordTable<Stretches>,
    awaited: Awaited,
) -> Result<(), NoMemory>
    requires lists { KeepsLists words.now lists.now }
    requires kept { KeepsRaising words.now raising.old }
    ensures { OnOk result (KeepsRaising words.now raising.new) }
{
    match lists.get(awaited.word) {
        Some(list) => raising.keep(alloc, words, list, awaited),
        None => Ok(()),
    }
}

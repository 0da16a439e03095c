ghost use Rattle.std.specs.Prelude.{◌≡◌, IfOk};
ghost use Rattle.std.specs.List.{filter};
ghost use Rattle.safe_model.specs.largest.Tests.{is_reached};
ghost use Rattle.audit_clocks.specs.Tables.{dword};
ghost use Rattle.board_writes.specs.Rows.{table_of, KeepsPolls};
ghost use Rattle.safe_said.specs.Members.{AreMembers, IsSeen};

use crate::landing::{in_order, is_chained};
use crate::looks::Looks;
use crate::open::open_unless;
use crate::order::is_reached;
use crate::runs::runs_of;
use crate::values::all_left;
use audit_clocks::WordTable;
use board_model::Word;
use board_writes::{WordWrite, WordWrites};
use pci_command::{NoMemory, OpId};
use std::alloc::Global;
use std::marker::Model;

/// The writes of a word that some run may come to; the same as runs, and in the order in which they
/// land; what the first so many of these leave in the word; whether each of these lands no more once
/// the next does; and the first that some other of them is not settled with.
#[derive(Debug, Drop)]
pub(crate) struct Reached {
    writes: Vec<WordWrite>,
    runs: Vec<WordWrites>,
    list: Vec<WordWrite>,
    values: Vec<u32>,
    chained: bool,
    first_open: Option<OpId>,
}

impl Model for Reached {
    ghost use Rattle.safe_said.specs.Members.{WordMembers};

    ghost Value = { WordMembers };

    ghost view = { λ k.
        record {
          writes = k.writes.items;
          runs = k.runs.items;
          list = k.list.items;
          values = k.values.items;
          chained = k.chained;
          first_open = k.first_open;
        } };
}

impl Reached {
    /// In the order of master and index.
    pub(crate) fn writes(&self) -> &[WordWrite]
        ensures { result.now ≡ self.now.writes }
    {
        self.writes.as_slice()
    }

    /// As runs.
    pub(crate) fn runs(&self) -> &[WordWrites]
        ensures { result.now ≡ self.now.runs }
    {
        self.runs.as_slice()
    }

    /// In the order in which they land.
    pub(crate) fn list(&self) -> &[WordWrite]
        ensures { result.now ≡ self.now.list }
    {
        self.list.as_slice()
    }

    /// What the first so many of these leave in the word.
    pub(crate) fn values(&self) -> &[u32]
        ensures { result.now ≡ self.now.values }
    {
        self.values.as_slice()
    }

    /// Whether they land in one order.
    pub(crate) fn is_chained(&self) -> bool
        ensures { result ≡ self.now.chained }
    {
        self.chained
    }

    /// The first that some other of them is not settled with.
    pub(crate) fn first_open(&self) -> Option<OpId>
        ensures { result ≡ self.now.first_open }
    {
        self.first_open
    }
}

/// Of the words that were asked for, the writes that some run may come to.
#[derive(Debug, Drop)]
pub(crate) struct Members {
    words: WordTable<Reached>,
}

impl Model for Members {
    ghost use Rattle.std.specs.Prelude.{List};
    ghost use Rattle.board_model.specs.declared.word.Word.{Word};
    ghost use Rattle.safe_said.specs.Members.{WordMembers};

    ghost Value = { List (Word × WordMembers) };

    ghost view = { λ k. k.words };
}

impl Members {
    ghost use Rattle.std.specs.Prelude.{OnOk, []};
    ghost use Rattle.std.specs.Option.{option_copied};
    ghost use Rattle.audit_clocks.specs.Tables.{found_in};
    ghost use Rattle.safe_said.specs.Members.{KeepsMembers, KeepsWord};

    /// No word was asked for.
    pub(crate) fn new(alloc: Global) -> Members
        ensures { result ≡ [] }
    {
        Members {
            words: WordTable::new(alloc),
        }
    }

    /// The word is asked for: its writes are listed, where they were not yet.
    pub(crate) fn list(&mut self, alloc: Global, looks: &Looks, word: Word) -> Result<(), NoMemory>
        requires seen { IsSeen looks.now.tree.now looks.now.table.now looks.now.writers.now
            looks.now.polls.now }
        requires kept { KeepsMembers looks.now.tree.now (table_of looks.now.table.now) self.old }
        ensures { OnOk result (KeepsWord looks.now.tree.now (table_of looks.now.table.now) word
            self.new) }
    {
        if self.words.get(word).is_none() {
            let reached = reached_of(alloc, looks, word)?;
            self.words.put(word, reached)?;
        }
        Ok(())
    }

    /// Those of the word, where it was asked for.
    pub(crate) fn of(&self, word: Word) -> Option<&Reached>
        ensures { option_copied result ≡ found_in word self.now }
    {
        self.words.get(word)
    }
}

/// Those of the word.
fn reached_of(alloc: Global, looks: &Looks, word: Word) -> Result<Reached, NoMemory>
    requires { IsSeen looks.now.tree.now looks.now.table.now looks.now.writers.now
        looks.now.polls.now }
    ensures { IfOk result (AreMembers looks.now.tree.now (table_of looks.now.table.now) (dword
        word)) }
{
    let writes = filter_reached(alloc, looks, looks.writers.of_word(word))?;
    let board = looks.tree.board();
    let runs = runs_of(alloc, board, looks.table, writes.as_slice())?;
    let list = in_order(alloc, board, looks.table, runs.as_slice())?;
    let values = all_left(alloc, board, word, list.as_slice())?;
    let chained = is_chained(board, looks.table, list.as_slice());
    let first_open = open_unless(looks, chained, runs.as_slice());
    Ok(Reached {
        writes,
        runs,
        list,
        values,
        chained,
        first_open,
    })
}

/// Those of the writes that some run may come to.
fn filter_reached(
    alloc: Global,
    looks: &Looks,
    writes: &[WordWrite],
) -> Result<Vec<WordWrite>, NoMemory>
    requires { KeepsPolls looks.now.tree.now looks.now.table.now }
    ensures { IfOk result (λ list. list.items ≡ filter (λ write. is_reached looks.now.tree.now
        (table_of looks.now.table.now) write.op) writes.now) }
{
    let list = writes
        .iter()
        .copied()
        .filter(|write| is_reached(looks.table, write.op))
        .collect(alloc)?;
    Ok(list)
}

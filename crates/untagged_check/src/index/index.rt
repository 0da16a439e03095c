ghost use Rattle.std.specs.Prelude.{◌≡◌};
ghost use Rattle.audit_clocks.specs.Tables.{list_in};

use crate::index::authors::Authors;
use crate::index::boards::list_writes;
use crate::index::entry::Write;
use audit_clocks::{Numbers, OpTable, WordTable};
use board_model::Word;
use board_tree::Tree;
use pci_command::{NoMemory, OpId};
use std::alloc::Global;
use std::marker::Model;

/// The writes of a board, by the dwords that they name and by their masters.
#[derive(Debug, Drop)]
pub struct WriteIndex {
    words: WordTable<Authors>,
}

impl Model for WriteIndex {
    ghost use Rattle.std.specs.Prelude.{List};
    ghost use Rattle.board_model.specs.declared.word.Word.{Word};
    ghost use Rattle.untagged_check.specs.index.Entries.{Listing};

    ghost Value = { List (Word × List Listing) };

    ghost view = { λ k. k.words };
}

impl WriteIndex {
    ghost use Rattle.std.specs.Prelude.{ℕ, List, [], ◌∷◌, IfOk, OnOk};
    ghost use Rattle.pci_command.specs.declared.op_id.OpId.{OpId};
    ghost use Rattle.board_model.specs.declared.board.Board.{Board};
    ghost use Rattle.audit_clocks.specs.Tables.{dword};
    ghost use Rattle.untagged_check.specs.index.Kept.{Indexes, Writes};
    ghost use Rattle.untagged_check.specs.index.Pending.{first_pending};

    /// Of the writes of the board; the table has of each that landed whole how many events there
    /// were before. It looks up each dword that a write names.
    pub fn new(alloc: Global, tree: &Tree, landed: &OpTable<usize>) -> Result<WriteIndex, NoMemory>
        ensures { IfOk result (λ index. Indexes tree.now landed.now index) }
    {
        let mut index = WriteIndex::empty(alloc);
        list_writes(&mut index, alloc, tree, landed)?;
        Ok(index)
    }

    /// The first write of the dword, by master, then by its place in the program, that had not
    /// landed whole before so many events, among so many operations of each master's program. It
    /// takes one look-up, and a binary search for each master that writes there.
    pub fn first(&self, word: Word, events: usize, bounds: &Numbers) -> Option<OpId>
        ensures { (board : Board) (landed : List (OpId × ℕ)) → Indexes board landed self.now →
            result ≡ first_pending board landed word events bounds.now }
    {
        match self.words.get(word) {
            Some(authors) => authors.first(events, bounds),
            None => None,
        }
    }

    fn empty(alloc: Global) -> WriteIndex
        ensures { result ≡ [] }
    {
        WriteIndex {
            words: WordTable::new(alloc),
        }
    }

    /// The dword gets the write, behind those that it has.
    pub(crate) fn put(&mut self, alloc: Global, word: Word, write: Write) -> Result<(), NoMemory>
        ensures { OnOk result (Writes write (dword word ∷ []) self.old self.new) }
    {
        let found = self.words.take(word);
        let authors = authors_or_new(alloc, found).with(alloc, write)?;
        self.words.put(word, authors)?;
        Ok(())
    }
}

fn authors_or_new(alloc: Global, authors: Option<Authors>) -> Authors
    ensures { result ≡ list_in authors }
{
    match authors {
        Some(authors) => authors,
        None => Authors::new(alloc),
    }
}

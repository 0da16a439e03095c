ghost use Rattle.std.specs.Prelude.{◌≡◌};
ghost use Rattle.audit_clocks.specs.Tables.{list_in};

use crate::writers::list::list_writes;
use crate::writers::write::{WordWrite, WordWrites};
use audit_clocks::WordTable;
use board_model::Word;
use board_tree::Tree;
use pci_command::NoMemory;
use std::alloc::Global;
use std::marker::Model;

/// The writes of each dword of a board, in the order of master and index.
#[derive(Debug, Drop)]
pub(crate) struct Words {
    words: WordTable<WordWrites>,
}

impl Model for Words {
    ghost use Rattle.std.specs.Prelude.{List};
    ghost use Rattle.board_model.specs.declared.word.Word.{Word};
    ghost use Rattle.board_writes.specs.declared.writers.write.WordWrite.{WordWrite};

    ghost Value = { List (Word × List WordWrite) };

    ghost view = { λ k. k.words };
}

impl Words {
    ghost use Rattle.std.specs.Prelude.{IfOk, OnOk, if◌then◌else◌, [], ◌∷◌};
    ghost use Rattle.board_model.specs.declared.board.Board.{Board};
    ghost use Rattle.audit_clocks.specs.Tables.{same_word, dword};
    ghost use Rattle.safe_model.specs.largest.Tests.{writes_of};
    ghost use Rattle.board_writes.specs.Writes.{writes_at, Adds, AreWrites, ListsWrites};

    /// Of the writes of the board. It looks up each dword that a write names.
    pub(crate) fn new(alloc: Global, tree: &Tree) -> Result<Words, NoMemory>
        ensures { IfOk result (ListsWrites tree.now) }
    {
        let mut writers = Words {
            words: WordTable::new(alloc),
        };
        list_writes(&mut writers, alloc, tree)?;
        Ok(writers)
    }

    /// Those of this dword, in the order of master and index. It takes one look-up.
    pub(crate) fn of_word(&self, word: Word) -> &[WordWrite]
        ensures at { result.now ≡ writes_at word self.now }
        ensures are { (board : Board) → ListsWrites board self.now →
            AreWrites board (dword word) (writes_of board (dword word)) result.now }
    {
        match self.words.get(word) {
            Some(writes) => writes.as_slice(),
            None => &[],
        }
    }

    /// The dword gets the write, behind those that it has.
    pub(crate) fn put(
        &mut self,
        alloc: Global,
        word: Word,
        write: WordWrite,
    ) -> Result<(), NoMemory>
        ensures { OnOk result (Adds (λ q. if same_word word q then write ∷ [] else [])
            self.old self.new) }
    {
        let found = self.words.take(word);
        let writes = writes_or_none(alloc, found).with(write)?;
        self.words.put(word, writes)?;
        Ok(())
    }
}

fn writes_or_none(alloc: Global, writes: Option<WordWrites>) -> WordWrites
    ensures { result ≡ list_in writes }
{
    match writes {
        Some(writes) => writes,
        None => WordWrites::new(alloc),
    }
}

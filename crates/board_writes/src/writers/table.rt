use crate::polls::Awaited;
use crate::writers::lists::lists_of;
use crate::writers::raising::{Raising, raising_of};
use crate::writers::stretches::Stretches;
use crate::writers::words::Words;
use crate::writers::write::WordWrite;
use audit_clocks::WordTable;
use board_model::Word;
use board_tree::Tree;
use pci_command::NoMemory;
use std::alloc::Global;
use std::marker::Model;

/// The writes of each dword of a board, in the order of master and index; as stretches those of each
/// dword that is polled; and, where they were listed apart, those that raise what some polls wait
/// for.
#[derive(Debug, Drop)]
pub struct Writers {
    words: Words,
    lists: WordTable<Stretches>,
    raising: Raising,
}

impl Model for Writers {
    ghost use Rattle.std.specs.Prelude.{List};
    ghost use Rattle.board_model.specs.declared.word.Word.{Word};
    ghost use Rattle.board_writes.specs.declared.writers.write.WordWrite.{WordWrite};
    ghost use Rattle.board_writes.specs.Writes.{KeepsLists};
    ghost use Rattle.board_writes.specs.Raising.{KeepsRaising};

    ghost Value = { List (Word × List WordWrite) };

    ghost view = { λ k. k.words };

    ghost invariant = { λ k. KeepsLists k.words k.lists × KeepsRaising k.words k.raising };
}

impl Writers {
    ghost use Rattle.std.specs.Prelude.{◌≡◌, IfOk, IfSome};
    ghost use Rattle.board_model.specs.declared.board.Board.{Board};
    ghost use Rattle.audit_clocks.specs.Tables.{dword};
    ghost use Rattle.safe_model.specs.largest.Tests.{writes_of};
    ghost use Rattle.board_writes.specs.Writes.{writes_at, AreWrites, ListsWrites};
    ghost use Rattle.board_writes.specs.Raising.{AreRaising};

    /// Of the writes of the board. It looks up each dword that a write names.
    pub fn new(alloc: Global, tree: &Tree) -> Result<Writers, NoMemory>
        ensures { IfOk result (ListsWrites tree.now) }
    {
        let words = Words::new(alloc, tree)?;
        let lists = lists_of(alloc, tree, &words)?;
        Ok(Writers {
            words,
            lists,
            raising: Raising::new(alloc),
        })
    }

    /// The same, with those apart that raise what some polls wait for: it looks through the writes of
    /// a dword once for each value and mask that is waited for there.
    pub(crate) fn with_raising(alloc: Global, tree: &Tree) -> Result<Writers, NoMemory>
        ensures { IfOk result (ListsWrites tree.now) }
    {
        let mut writers = Writers::new(alloc, tree)?;
        writers.raising = raising_of(alloc, tree, &writers.words, &writers.lists)?;
        Ok(writers)
    }

    /// Those of this dword, in the order of master and index. It takes one look-up.
    pub fn of_word(&self, word: Word) -> &[WordWrite]
        ensures at { result.now ≡ writes_at word self.now }
        ensures are { (board : Board) → ListsWrites board self.now →
            AreWrites board (dword word) (writes_of board (dword word)) result.now }
    {
        self.words.of_word(word)
    }

    /// The same as stretches, where the dword is polled.
    pub(crate) fn stretches(&self, word: Word) -> Option<&Stretches>
        ensures { IfSome result (λ list. list.now ≡ writes_at word self.now) }
    {
        self.lists.get(word)
    }

    /// Those of the dword among which are all that raise what is awaited, where it is polled: no
    /// others where they are listed apart.
    pub(crate) fn raising(&self, awaited: Awaited) -> Option<&Stretches>
        ensures { IfSome result (λ list.
            AreRaising awaited (writes_at awaited.word self.now) list.now) }
    {
        match self.raising.of(awaited) {
            Some(list) => Some(list),
            None => self.lists.get(awaited.word),
        }
    }
}

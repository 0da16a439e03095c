ghost use Rattle.std.specs.Prelude.{◌≡◌};

use board_model::Word;
use pci_command::NoMemory;
use std::alloc::Global;
use std::collections::HashMap;
use std::marker::Model;

/// A value of each of some dwords.
#[derive(Debug, Drop)]
pub struct WordTable<V> {
    entries: HashMap<Word, V>,
}

impl<V> Model for WordTable<V> {
    ghost use Rattle.std.specs.Prelude.{List};
    ghost use Rattle.board_model.specs.declared.word.Word.{Word};

    ghost Value = { List (Word × V) };

    ghost view = { λ k. k.entries.entries };
}

impl<V: Drop> WordTable<V> {
    ghost use Rattle.std.specs.Prelude.{OnOk, []};
    ghost use Rattle.std.specs.Option.{option_copied};
    ghost use Rattle.board_model.specs.declared.word.Word.{Word};
    ghost use Rattle.audit_clocks.specs.Tables.{found_in, TakesWord, PutsWord};

    /// No dword has one.
    pub fn new(alloc: Global) -> WordTable<V>
        ensures { result ≡ [] }
    {
        WordTable {
            entries: HashMap::new(alloc),
        }
    }

    /// That of the dword, where it has one.
    pub fn get(&self, word: Word) -> Option<&V>
        ensures { option_copied result ≡ found_in word self.now }
    {
        self.entries.get(&word)
    }

    /// That of the dword, where it has one, which it has no longer.
    pub fn take(&mut self, word: Word) -> Option<V>
        ensures found { result ≡ found_in word self.old }
        ensures others { TakesWord word self.old self.new }
    {
        self.entries.remove(&word)
    }

    /// The dword has this one.
    pub fn put(&mut self, word: Word, value: V) -> Result<(), NoMemory>
        ensures { OnOk result (PutsWord word value self.old self.new) }
    {
        self.entries.insert(word, value)?;
        Ok(())
    }
}

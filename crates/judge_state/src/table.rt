ghost use Rattle.std.specs.Prelude.{◌≡◌, Some};

use board_model::Word;
use pci_command::NoMemory;
use std::alloc::Global;
use std::collections::HashMap;
use std::marker::Model;

/// Where the value of each word is.
#[derive(Debug, Drop)]
pub(crate) struct KeptPlaces {
    places: HashMap<Word, usize>,
}

impl Model for KeptPlaces {
    ghost use Rattle.judge_state.specs.State.{WordPlaces};

    ghost Value = { WordPlaces };

    ghost view = { λ k. k.places.entries };
}

impl KeptPlaces {
    ghost use Rattle.judge_state.specs.Words.{place_at, same_word};
    ghost use Rattle.std.specs.Prelude.{OnOk, IfOk, if◌then◌else◌, []};
    ghost use Rattle.board_model.specs.declared.word.Word.{Word};

    /// No word.
    pub(crate) fn new(alloc: Global) -> KeptPlaces
        ensures { result ≡ [] }
    {
        KeptPlaces {
            places: HashMap::new(alloc),
        }
    }

    /// The place of the word, where it has one.
    pub(crate) fn get(&self, word: Word) -> Option<usize>
        ensures { result ≡ place_at self.now word }
    {
        self.places.get(&word).copied()
    }

    /// The word has this place.
    pub(crate) fn put(&mut self, word: Word, place: usize) -> Result<(), NoMemory>
        ensures { OnOk result ((q : Word) →
            place_at self.new q ≡ (if same_word word q then Some place else place_at self.old q)) }
    {
        self.places.insert(word, place)?;
        Ok(())
    }
}

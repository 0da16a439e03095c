ghost use Rattle.std.specs.Prelude.{◌≡◌};
ghost use Rattle.audit_clocks.specs.Tables.{list_in};

use crate::landed::{Landed, Track};
use board_model::Word;
use pci_command::{NoMemory, OpId};
use std::alloc::Global;
use std::collections::HashMap;
use std::marker::Model;

/// The writes of the data phases that landed in each dword, in their order.
#[derive(Debug, Drop)]
pub struct Landings {
    words: HashMap<Word, Landed>,
}

impl Model for Landings {
    ghost use Rattle.std.specs.Prelude.{List};
    ghost use Rattle.pci_command.specs.declared.op_id.OpId.{OpId};
    ghost use Rattle.board_model.specs.declared.word.Word.{Word};

    ghost Value = { List (Word × List OpId) };

    ghost view = { λ k. k.words.entries };
}

impl Landings {
    ghost use Rattle.std.specs.Prelude.{OnOk, if◌then◌else◌, [], ◌∷◌};
    ghost use Rattle.audit_clocks.specs.Tables.{writes_in, same_word, Lands};
    ghost use Rattle.audit_clocks.specs.Tracks.{Tracked};
    ghost use Rattle.board_model.specs.declared.word.Word.{Word};

    /// Nothing landed.
    pub fn new(alloc: Global) -> Landings
        ensures { result ≡ [] }
    {
        Landings {
            words: HashMap::new(alloc),
        }
    }

    /// What landed in the dword.
    pub fn of(&self, word: Word) -> &[OpId]
        ensures { result.now ≡ writes_in word self.now }
    {
        match self.words.get(&word) {
            Some(landed) => landed.as_slice(),
            None => &[],
        }
    }

    /// The places of what landed in the dword, along the programs of the authors.
    pub fn tracks(&self, word: Word) -> &[Track]
        ensures { Tracked (writes_in word self.now) result.now }
    {
        match self.words.get(&word) {
            Some(landed) => landed.tracks(),
            None => &[],
        }
    }

    /// A data phase of the write lands in the dword.
    pub fn land(&mut self, alloc: Global, word: Word, op: OpId) -> Result<(), NoMemory>
        ensures { OnOk result (Lands self.old self.new (λ q. if same_word word q then op ∷
            [] else [])) }
    {
        let found = self.words.remove(&word);
        let landed = landed_or_new(alloc, found).with(alloc, op)?;
        self.words.insert(word, landed)?;
        Ok(())
    }
}

fn landed_or_new(alloc: Global, landed: Option<Landed>) -> Landed
    ensures { result ≡ list_in landed }
{
    match landed {
        Some(landed) => landed,
        None => Landed::new(alloc),
    }
}

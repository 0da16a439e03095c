ghost use Rattle.std.specs.Prelude.{◌≡◌};

use pci_command::{NoMemory, OpId, Phase};
use std::alloc::Global;
use std::marker::Model;

/// A write of a dword: the data phase that it brings there, whether it is posted, and whether the
/// dword is the last of its words.
#[derive(Clone, Copy, Debug)]
pub struct WordWrite {
    pub op: OpId,
    pub phase: Phase,
    pub posted: bool,
    pub last: bool,
}

impl WordWrite {
    ghost use Rattle.board_writes.specs.Stretches.{value_in};

    /// The value that it brings.
    pub(crate) fn value(self) -> u32
        ensures { result ≡ value_in self }
    {
        self.phase.value & 0xffff_ffff
    }
}

/// Writes of one dword.
#[derive(Debug, Drop)]
pub struct WordWrites {
    writes: Vec<WordWrite>,
}

impl Model for WordWrites {
    ghost use Rattle.std.specs.Prelude.{List};
    ghost use Rattle.board_writes.specs.declared.writers.write.WordWrite.{WordWrite};

    ghost Value = { List WordWrite };

    ghost view = { λ k. k.writes.items };
}

impl WordWrites {
    ghost use Rattle.std.specs.Prelude.{IfOk, [], ◌∷◌, ◌++◌};

    /// None.
    pub(crate) fn new(alloc: Global) -> WordWrites
        ensures { result ≡ [] }
    {
        WordWrites::of(Vec::new(alloc))
    }

    /// These.
    pub fn of(writes: Vec<WordWrite>) -> WordWrites
        ensures { result ≡ writes.items }
    {
        WordWrites { writes }
    }

    /// All of them.
    pub fn as_slice(&self) -> &[WordWrite]
        ensures { result.now ≡ self.now }
    {
        self.writes.as_slice()
    }

    /// One more at the end.
    pub(crate) fn with(self, write: WordWrite) -> Result<WordWrites, NoMemory>
        ensures { IfOk result (λ writes. writes ≡ self ++ write ∷ []) }
    {
        let WordWrites { mut writes } = self;
        writes.push(write)?;
        Ok(WordWrites { writes })
    }
}

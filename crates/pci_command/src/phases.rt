ghost use Rattle.std.specs.Prelude.{◌≡◌, ◌+◌, ◌<◌, ◌≤◌, ◌↔◌, [], ◌∷◌, ◌++◌, length, IsTrue};

use arrayvec::ArrayVec;
use std::marker::Model;

/// A data phase of a write (PCI Local Bus 2.2, section 3.3.2, from memory): a dword, and in the low
/// four bits of `enables` which of its bytes are written (bit i enables byte i, byte 0 is bits 7 to
/// 0).
#[derive(Clone, Copy, Debug, Default, PartialEq, Eq)]
pub struct Phase {
    pub value: u32,
    pub enables: u8,
}

/// The data phases of one transaction in order: at most eight.
#[derive(Debug, Drop)]
pub struct Phases {
    phases: ArrayVec<Phase, 8>,
}

impl Model for Phases {
    ghost use Rattle.std.specs.Prelude.{List, ◌≤◌, length};
    ghost use Rattle.pci_command.specs.declared.phases.Phase.{Phase};

    ghost Value = { List Phase };

    ghost view = { λ p. p.phases.items };

    ghost invariant = { λ p. length p.phases.items ≤ 8 };
}

impl Phases {
    /// No phase yet.
    pub fn new() -> Phases
        ensures { result ≡ [] }
    {
        Phases {
            phases: ArrayVec::new(),
        }
    }

    /// How many there are.
    pub fn len(&self) -> usize
        ensures value { result ≡ length self.now }
        ensures fits { length self.now ≤ 8 }
    {
        self.phases.len()
    }

    /// Whether there is none.
    pub fn is_empty(&self) -> bool
        ensures { IsTrue result ↔ (self.now ≡ []) }
    {
        self.phases.is_empty()
    }

    /// One more phase, behind the others.
    pub fn push(&mut self, phase: Phase)
        requires { length self.old < 8 }
        ensures { self.new ≡ self.old ++ phase ∷ [] }
    {
        self.phases.push(phase);
    }

    /// The phases in order.
    pub fn as_slice(&self) -> &[Phase]
        ensures value { result.now ≡ self.now }
        ensures fits { length self.now ≤ 8 }
    {
        self.phases.as_slice()
    }

    /// Equal phases.
    pub fn copy(&self) -> Phases
        ensures { result ≡ self.now }
    {
        let mut copied = Phases::new();
        for phase in self.phases.as_slice() {
            copied.push(*phase);
        }
        copied
    }
}

impl Default for Phases {
    ghost is_default = { λ phases. phases ≡ [] };

    fn default() -> Phases {
        Phases::new()
    }
}

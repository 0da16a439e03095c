ghost use Rattle.std.specs.Prelude.{ℕ, Bool, true, ◌≡◌, ◌≤◌, List, [], Option, Some, IfSome, IfNone, is_some};
ghost use Rattle.std.specs.Prelude.{OnOk, OnErr};
ghost use Rattle.std.specs.Io.{ReadsAtMost, WritesAtMost};
ghost use Rattle.std.specs.Io.KnownBytes.{ReadConsumes, WriteAppends};
ghost use Rattle.io_ports.specs.Faults.{Rose};
ghost use Rattle.io_ports.specs.Port.{TakesSome};

use crate::Failed;
use pci_command::List;
use std::alloc::Global;

/// A list of bytes.
pub type Bytes = List<u8>;

/// Where bytes come from.
pub trait Source {
    /// The bytes that it still gives, where it tells them.
    ghost held: { Self → Option (List ℕ) };

    /// How often it failed: a count of 64 bits that never falls.
    ghost faults: { Self → ℕ };

    /// Whether it has all that it still gives in memory, and no read of it will fail.
    ghost lends: { Self → Bool };

    /// Gives the next bytes at the front of the buffer, and their number. 0 for a buffer that is
    /// not empty is the end. At `Err` no byte is given.
    fn read(&mut self, buf: &mut [u8]) -> Result<usize, Failed>
        ensures bound { ReadsAtMost result buf.new }
        ensures bytes { ReadConsumes (held self.old) (held self.new) result buf.new }
        ensures counted { faults self.old ≤ faults self.new }
        ensures clean { OnOk result (faults self.new ≡ faults self.old) }
        ensures failed { OnErr result (Rose (faults self.old) (faults self.new)) };

    /// All that it still gives, without a copy, where it lends. Only `end` gives it.
    fn lent(&self) -> Option<&[u8]>
        ensures lent { IfSome result (λ bytes. held self.now ≡ Some bytes.now) }
        ensures lends { is_some result ≡ lends self.now };

    /// Gives at once all that is lent.
    fn end(&mut self)
        ensures ends { lends self.old ≡ true → held self.new ≡ Some [] }
        ensures clean { faults self.new ≡ faults self.old };

    /// Gives at once all that it has, and keeps none of it, where it does not need it any more.
    fn give_up(&mut self, alloc: Global) -> Option<Bytes>
        ensures given { IfSome result (λ bytes. held self.old ≡ Some bytes) }
        ensures ended { IfSome result (λ _. held self.new ≡ Some []) }
        ensures stays { IfNone result (self.new ≡ self.old) }
        ensures clean { faults self.new ≡ faults self.old };
}

/// Where bytes go.
pub trait Sink {
    /// The bytes that it took, where it tells them.
    ghost taken: { Self → Option (List ℕ) };

    /// How often it failed: a count of 64 bits that never falls.
    ghost faults: { Self → ℕ };

    /// Takes the first bytes of the piece, and gives their number: at least one of a piece that
    /// is not empty. At `Err` no byte is taken.
    fn write(&mut self, piece: &[u8]) -> Result<usize, Failed>
        ensures bound { WritesAtMost result piece.now }
        ensures bytes { WriteAppends (taken self.old) (taken self.new) result piece.now }
        ensures some { TakesSome result piece.now }
        ensures counted { faults self.old ≤ faults self.new }
        ensures clean { OnOk result (faults self.new ≡ faults self.old) }
        ensures failed { OnErr result (Rose (faults self.old) (faults self.new)) };
}

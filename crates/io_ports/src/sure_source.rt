ghost use Rattle.std.specs.Prelude.{◌≡◌};

use crate::memory_source::give;
use crate::{Bytes, Failed, Source};
use std::alloc::Global;
use std::marker::Model;

/// A source of bytes in memory that never fails. Each call gives as much as it can.
/// No word of the program calls it.
#[derive(Debug, Drop)]
pub struct SureSource {
    bytes: Bytes,
    given: usize,
}

impl Model for SureSource {
    ghost use Rattle.std.specs.Prelude.{ℕ, List, ◌≤◌, length, drop};

    ghost Value = { List ℕ };

    ghost view = { λ source. drop source.given source.bytes };

    ghost invariant = { λ source. source.given ≤ length source.bytes };
}

impl SureSource {
    /// A source of these bytes.
    pub fn new(bytes: Bytes) -> SureSource
        ensures { result ≡ bytes }
    {
        SureSource { bytes, given: 0 }
    }
}

impl Source for SureSource {
    ghost use Rattle.std.specs.Prelude.{Ok, Some, ◌≡◌, ◌≤◌, min, length, take, drop, IfOk, OnOk, OnErr, ℕ};
    ghost use Rattle.std.specs.Prelude.{true, [], IfSome, is_some};
    ghost use Rattle.std.specs.Io.{ReadsAtMost};
    ghost use Rattle.std.specs.Io.KnownBytes.{ReadConsumes};
    ghost use Rattle.io_ports.specs.Faults.{Rose};

    ghost held = { λ source. Some source };

    ghost faults = { λ _. 0 };

    ghost lends = { λ _. true };

    fn read(&mut self, buf: &mut [u8]) -> Result<usize, Failed>
        ensures bound { ReadsAtMost result buf.new }
        ensures bytes { ReadConsumes (Some self.old) (Some self.new) result buf.new }
        ensures counted { 0 ≤ 0 }
        ensures clean { OnOk result (◌≡◌ {A = ℕ} 0 0) }
        ensures failed { OnErr result (Rose 0 0) }

        // It never fails, and gives as much as it can.
        ensures full { result ≡ Ok (min (length buf.old) (length self.old)) }
        ensures next { IfOk result (λ n. take n buf.new ≡ take n self.old) }
        ensures after { IfOk result (λ n. self.new ≡ drop n self.old) }
    {
        let (_, rest) = self.bytes.as_slice().split_at(self.given);
        let count = give(rest, buf, rest.len().max(1));
        self.given += count;
        Ok(count)
    }

    fn lent(&self) -> Option<&[u8]>
        ensures lent { IfSome result (λ bytes. Some self.now ≡ Some bytes.now) }
        ensures lends { is_some result ≡ true }
    {
        let (_, rest) = self.bytes.as_slice().split_at(self.given);
        Some(rest)
    }

    fn end(&mut self)
        ensures ends { true ≡ true → Some self.new ≡ Some [] }
        ensures clean { ◌≡◌ {A = ℕ} 0 0 }
    {
        self.given = self.bytes.as_slice().len();
    }

    fn give_up(&mut self, _alloc: Global) -> Option<Bytes> {
        None
    }
}

ghost use Rattle.std.specs.Prelude.{◌≡◌};

use crate::{Failed, Sink};
use std::marker::Model;

/// A sink that never fails. It takes each piece whole, keeps the number of bytes alone and so
/// takes no memory, and tells no bytes.
/// No word of the program calls it.
#[derive(Debug, Drop)]
pub struct SureSink {
    count: u64,
}

impl Model for SureSink {
    ghost use Rattle.std.specs.Prelude.{ℕ};

    ghost Value = { ℕ };

    ghost view = { λ sink. sink.count };
}

impl SureSink {
    /// A sink that took nothing yet.
    pub fn new() -> SureSink
        ensures { result ≡ 0 }
    {
        SureSink { count: 0 }
    }

    /// How many bytes it took, or the last value of 64 bits.
    pub fn count(&self) -> u64
        ensures { result ≡ self.now }
    {
        self.count
    }
}

impl Sink for SureSink {
    ghost use Rattle.std.specs.Prelude.{None, Ok, ◌≡◌, ◌+◌, ◌-◌, ◌^◌, ◌≤◌, min, length, OnOk, OnErr, ℕ};
    ghost use Rattle.std.specs.Io.{WritesAtMost};
    ghost use Rattle.std.specs.Io.KnownBytes.{WriteAppends};
    ghost use Rattle.io_ports.specs.Faults.{Rose};
    ghost use Rattle.io_ports.specs.Port.{TakesSome};

    ghost taken = { λ _. None };

    ghost faults = { λ _. 0 };

    fn write(&mut self, piece: &[u8]) -> Result<usize, Failed>
        ensures bound { WritesAtMost result piece.now }
        ensures bytes { WriteAppends None None result piece.now }
        ensures some { TakesSome result piece.now }
        ensures counted { 0 ≤ 0 }
        ensures clean { OnOk result (◌≡◌ {A = ℕ} 0 0) }
        ensures failed { OnErr result (Rose 0 0) }

        // It never fails, and takes the whole piece.
        ensures whole { result ≡ Ok (length piece.now) }
        ensures after { self.new ≡ min (self.old + length piece.now) (2 ^ 64 - 1) }
    {
        self.count = self.count.saturating_add(piece.len() as u64);
        Ok(piece.len())
    }
}

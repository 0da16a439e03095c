ghost use Rattle.std.specs.Prelude.{◌≡◌, ◌<◌, [], ◌++◌, min, length, take, drop};

use crate::counts::{is_listed, one_more};
use crate::{Bytes, Failed, Source};
use pci_command::List;
use std::alloc::Global;
use std::marker::Model;

/// A source over bytes in memory, which gives at most so many of them in one call and fails at
/// calls of given numbers: for tests. No word of the program calls it.
#[derive(Debug, Drop)]
pub struct MemorySource {
    bytes: Bytes,
    given: usize,
    most: usize,
    failing: List<u32>,
    calls: u64,
    faults: u64,
}

impl Model for MemorySource {
    ghost use Rattle.std.specs.Prelude.{◌<◌, ◌≤◌, length, drop};
    ghost use Rattle.io_ports.specs.MemoryPort.{SourceState};

    ghost Value = { SourceState };

    ghost view = { λ source. record {
      rest = drop source.given source.bytes;
      most = source.most;
      failing = source.failing;
      calls = source.calls;
      faults = source.faults;
    } };

    ghost invariant = { λ source. (source.given ≤ length source.bytes) × (0 < source.most) };
}

impl MemorySource {
    /// A source of these bytes, which gives at most `most` (1 or more) of them in one call, and
    /// fails at the calls whose numbers, from 1, are listed.
    pub fn new(bytes: Bytes, most: usize, failing: List<u32>) -> MemorySource
        requires { 0 < most }
        ensures { result ≡
            record { rest = bytes; most = most; failing = failing; calls = 0; faults = 0 } }
    {
        MemorySource {
            bytes,
            given: 0,
            most,
            failing,
            calls: 0,
            faults: 0,
        }
    }
}

impl Source for MemorySource {
    ghost use Rattle.std.specs.Prelude.{Some, ◌≡◌, ◌≤◌, ◌↔◌, take, IfOk, IsErr, OnOk, OnErr};
    ghost use Rattle.std.specs.Prelude.{true, false, [], IfSome, is_some};
    ghost use Rattle.std.specs.Io.{ReadsAtMost};
    ghost use Rattle.std.specs.Io.KnownBytes.{ReadConsumes};
    ghost use Rattle.io_ports.specs.Faults.{Rose};
    ghost use Rattle.io_ports.specs.MemoryPort.{FailsNext, read_len, source_after};

    ghost held = { λ source. Some source.rest };

    ghost faults = { λ source. source.faults };

    ghost lends = { λ _. false };

    fn read(&mut self, buf: &mut [u8]) -> Result<usize, Failed>
        ensures bound { ReadsAtMost result buf.new }
        ensures bytes { ReadConsumes (Some self.old.rest) (Some self.new.rest) result buf.new }
        ensures counted { self.old.faults ≤ self.new.faults }
        ensures clean { OnOk result (self.new.faults ≡ self.old.faults) }
        ensures failed { OnErr result (Rose self.old.faults self.new.faults) }

        // The calls that are listed fail, and each other call gives as much as it can.
        ensures listed { IsErr result ↔ FailsNext self.old.failing self.old.calls }
        ensures full { IfOk result (λ n. n ≡ read_len self.old buf.old) }
        ensures next { IfOk result (λ n. take n buf.new ≡ take n self.old.rest) }
        ensures after { self.new ≡ source_after self.old result }
    {
        self.calls = one_more(self.calls);
        if is_listed(self.failing.as_slice(), self.calls) {
            self.faults = one_more(self.faults);
            return Err(Failed);
        }
        let (_, rest) = self.bytes.as_slice().split_at(self.given);
        let count = give(rest, buf, self.most);
        self.given += count;
        Ok(count)
    }

    // It lends nothing, since its calls may fail.
    fn lent(&self) -> Option<&[u8]>
        ensures lent { IfSome result (λ bytes. Some self.now.rest ≡ Some bytes.now) }
        ensures lends { is_some result ≡ false }
    {
        None
    }

    fn end(&mut self)
        ensures ends { false ≡ true → Some self.new.rest ≡ Some [] }
        ensures clean { self.new.faults ≡ self.old.faults }
    {}

    fn give_up(&mut self, _alloc: Global) -> Option<Bytes> {
        None
    }
}

/// Copies bytes from the front to the front, as many as all three allow.
pub(crate) fn give(from: &[u8], to: &mut [u8], most: usize) -> usize
    requires { 0 < most }
    ensures count { result ≡ min most (min (length to.old) (length from.now)) }
    ensures bytes { take result to.new ≡ take result from.now }
    ensures consumed { from.now ≡ take result to.new ++ drop result from.now }
    ensures end { result ≡ 0 → 0 < length to.new → from.now ≡ [] }
{
    let count = most.min(to.len().min(from.len()));
    to[..count].copy_from_slice(&from[..count]);
    count
}

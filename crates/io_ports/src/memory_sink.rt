ghost use Rattle.std.specs.Prelude.{◌≡◌, ◌<◌, [], IfOk};

use crate::counts::{is_listed, one_more};
use crate::{Failed, Sink};
use pci_command::{List, NoMemory};
use std::alloc::Global;
use std::marker::Model;

/// A sink into memory, which has room for so many bytes, takes at most so many of them in one
/// call and fails at calls of given numbers: for tests. No word of the program calls it.
#[derive(Debug, Drop)]
pub struct MemorySink {
    bytes: Vec<u8>,
    size: usize,
    most: usize,
    failing: List<u32>,
    calls: u64,
    faults: u64,
}

impl Model for MemorySink {
    ghost use Rattle.std.specs.Prelude.{◌<◌, ◌≤◌, length, vec_capacity};
    ghost use Rattle.io_ports.specs.MemoryPort.{SinkState};

    ghost Value = { SinkState };

    ghost view = { λ sink. record {
      taken = sink.bytes.items;
      most = sink.most;
      size = sink.size;
      failing = sink.failing;
      calls = sink.calls;
      faults = sink.faults;
    } };

    ghost invariant = { λ sink. (length sink.bytes.items ≤ sink.size) ×
        (sink.size ≤ vec_capacity sink.bytes) × (0 < sink.most) };
}

impl MemorySink {
    /// A sink with room for `size` bytes, which takes at most `most` (1 or more) of them in one
    /// call, and fails at the calls whose numbers, from 1, are listed. Only this call takes memory.
    pub fn new(
        alloc: Global,
        most: usize,
        failing: List<u32>,
        size: usize,
    ) -> Result<MemorySink, NoMemory>
        requires { 0 < most }
        ensures { IfOk result (λ sink. sink ≡ record {
          taken = [];
          most = most;
          size = size;
          failing = failing;
          calls = 0;
          faults = 0;
        }) }
    {
        let bytes = Vec::with_capacity(alloc, size)?;
        Ok(MemorySink {
            bytes,
            size,
            most,
            failing,
            calls: 0,
            faults: 0,
        })
    }

    /// The bytes that it took, in order.
    pub fn bytes(&self) -> &[u8]
        ensures { result.now ≡ self.now.taken }
    {
        self.bytes.as_slice()
    }
}

impl Sink for MemorySink {
    ghost use Rattle.std.specs.Prelude.{Some, ◌≡◌, ◌≤◌, ◌↔◌, ◌⊎◌, IfOk, IsErr, OnOk, OnErr};
    ghost use Rattle.std.specs.Io.{WritesAtMost};
    ghost use Rattle.std.specs.Io.KnownBytes.{WriteAppends};
    ghost use Rattle.io_ports.specs.Faults.{Rose};
    ghost use Rattle.io_ports.specs.Port.{TakesSome};
    ghost use Rattle.io_ports.specs.MemoryPort.{FailsNext, HasNoRoom, write_len, sink_after};

    ghost taken = { λ sink. Some sink.taken };

    ghost faults = { λ sink. sink.faults };

    fn write(&mut self, piece: &[u8]) -> Result<usize, Failed>
        ensures bound { WritesAtMost result piece.now }
        ensures bytes { WriteAppends (Some self.old.taken) (Some self.new.taken) result piece.now }
        ensures some { TakesSome result piece.now }
        ensures counted { self.old.faults ≤ self.new.faults }
        ensures clean { OnOk result (self.new.faults ≡ self.old.faults) }
        ensures failed { OnErr result (Rose self.old.faults self.new.faults) }

        // The calls that are listed fail, and those that find no room. Each other call takes as
        // much as it can.
        ensures listed { IsErr result ↔
            (FailsNext self.old.failing self.old.calls ⊎ HasNoRoom self.old piece.now) }
        ensures full { IfOk result (λ n. n ≡ write_len self.old piece.now) }
        ensures after { self.new ≡ sink_after self.old piece.now result }
    {
        self.calls = one_more(self.calls);
        let room = self.size - self.bytes.len();
        let has_no_room = !piece.is_empty() && room == 0;
        if has_no_room || is_listed(self.failing.as_slice(), self.calls) {
            self.faults = one_more(self.faults);
            return Err(Failed);
        }
        let count = self.most.min(piece.len().min(room));
        let (front, _) = piece.split_at(count);
        self.bytes.extend_from_slice(front).unwrap();
        Ok(count)
    }
}

ghost use Rattle.std.specs.Prelude.{◌≡◌, []};
ghost use Rattle.std.specs.Io.{WritesAtMost};
ghost use Rattle.std.specs.Io.KnownBytes.{WriteAppends};
ghost use Rattle.io_ports.specs.Port.{TakesSome};

use crate::counts::one_more;
use crate::told::TakenBytes;
use crate::{Failed, Sink};
use std::io::{ErrorKind, Write};
use std::marker::Model;

/// A sink over a writer of `std::io`. It tells what it passed on and the writer took. The bytes
/// that it tells are there for contracts alone, and take no memory.
#[derive(Drop)]
pub struct WritePort<W> {
    inner: W,
    taken: TakenBytes,
    faults: u64,
    reason: Option<ErrorKind>,
}

impl<W> Model for WritePort<W> {
    ghost use Rattle.io_ports.specs.Port.{WriterState};

    ghost Value = { WriterState W };

    ghost view = { λ port.
        record { writer = port.inner; taken = port.taken.bytes; faults = port.faults } };
}

impl<W> WritePort<W> {
    /// A sink over this writer, which took nothing yet and has no fault.
    pub fn new(inner: W) -> WritePort<W>
        ensures { result ≡ record { writer = inner; taken = []; faults = 0 } }
    {
        WritePort {
            inner,
            taken: TakenBytes::new(),
            faults: 0,
            reason: None,
        }
    }

    /// Why the last write that failed did, as the system tells it. None where none failed, or where
    /// the writer took nothing.
    pub fn reason(&self) -> Option<ErrorKind> {
        self.reason
    }
}

impl<W: Write> Sink for WritePort<W> {
    ghost use Rattle.std.specs.Prelude.{Some, ◌≡◌, ◌≤◌, OnOk, OnErr};
    ghost use Rattle.std.specs.Io.{WritesAtMost};
    ghost use Rattle.std.specs.Io.KnownBytes.{WriteAppends};
    ghost use Rattle.io_ports.specs.Faults.{Rose};
    ghost use Rattle.io_ports.specs.Port.{TakesSome, faults_after};

    ghost taken = { λ port. Some port.taken };

    ghost faults = { λ port. port.faults };

    fn write(&mut self, piece: &[u8]) -> Result<usize, Failed>
        ensures bound { WritesAtMost result piece.now }
        ensures bytes { WriteAppends (Some self.old.taken) (Some self.new.taken) result piece.now }
        ensures some { TakesSome result piece.now }
        ensures counted { self.old.faults ≤ self.new.faults }
        ensures clean { OnOk result (self.new.faults ≡ self.old.faults) }
        ensures failed { OnErr result (Rose self.old.faults self.new.faults) }

        // What it tells of a call is what the writer took in it, where that one tells it.
        ensures passed { WriteAppends (W.contents self.old.writer)
            (W.contents self.new.writer) result piece.now }

        // Each failure counts, and nothing else does.
        ensures after { self.new.faults ≡ faults_after self.old.faults result }
    {
        match write_to(&mut self.inner, &mut self.reason, piece) {
            Ok(count) => {
                self.taken.more(&piece[..count]);
                Ok(count)
            }
            Err(Failed) => {
                self.faults = one_more(self.faults);
                Err(Failed)
            }
        }
    }
}

/// A writer is asked so often at most for one write that signals interrupt.
const TRIES: u32 = u32::MAX;

/// One write of the writer, where taking nothing of a piece that is not empty is a failure; again
/// where a signal interrupts it. Where it fails, the reason is the system's.
fn write_to<W: Write>(
    inner: &mut W,
    reason: &mut Option<ErrorKind>,
    piece: &[u8],
) -> Result<usize, Failed>
    ensures bound { WritesAtMost result piece.now }
    ensures some { TakesSome result piece.now }
    ensures passed { WriteAppends (W.contents inner.old) (W.contents inner.new) result piece.now }
{
    for _ in 0..TRIES {
        match inner.write(piece) {
            Ok(0) if !piece.is_empty() => return Err(Failed),
            Ok(count) => return Ok(count),
            Err(error) if error.kind() == ErrorKind::Interrupted => {}
            Err(error) => {
                *reason = Some(error.kind());
                return Err(Failed);
            }
        }
    }
    Err(Failed)
}

ghost use Rattle.std.specs.Prelude.{◌≡◌, is_some, false, IsErr};
ghost use Rattle.std.specs.Option.{option_and_then};
ghost use Rattle.std.specs.Io.{ReadsAtMost};
ghost use Rattle.std.specs.Io.KnownBytes.{ReadConsumes};

use crate::counts::one_more;
use crate::{Bytes, Failed, Source};
use std::alloc::Global;
use std::io::{ErrorKind, Read};
use std::marker::Model;

/// A source over a reader of `std::io`, or over none, as where a file could not be opened. It
/// tells what the reader tells: a file tells nothing.
#[derive(Drop)]
pub struct ReadPort<R> {
    inner: Option<R>,
    faults: u64,
    reason: Option<ErrorKind>,
}

impl<R> Model for ReadPort<R> {
    ghost use Rattle.io_ports.specs.Port.{ReaderState};

    ghost Value = { ReaderState R };

    ghost view = { λ port. record { reader = port.inner; faults = port.faults } };
}

impl<R> ReadPort<R> {
    /// A source over this reader, with no fault yet.
    pub fn new(inner: Option<R>) -> ReadPort<R>
        ensures { result ≡ record { reader = inner; faults = 0 } }
    {
        ReadPort {
            inner,
            faults: 0,
            reason: None,
        }
    }

    /// Why the last read that failed did, as the system tells it. None where none failed, or where
    /// there is no reader.
    pub fn reason(&self) -> Option<ErrorKind> {
        self.reason
    }
}

impl<R: Read> Source for ReadPort<R> {
    ghost use Rattle.std.specs.Prelude.{true, false, Some, [], is_some, IfSome, ◌≡◌, ◌≤◌, IsErr};
    ghost use Rattle.std.specs.Prelude.{OnOk, OnErr};
    ghost use Rattle.std.specs.Option.{option_and_then};
    ghost use Rattle.std.specs.Io.{ReadsAtMost};
    ghost use Rattle.std.specs.Io.KnownBytes.{ReadConsumes};
    ghost use Rattle.io_ports.specs.Faults.{Rose};
    ghost use Rattle.io_ports.specs.Port.{faults_after};

    ghost held = { λ port. option_and_then R.remaining port.reader };

    ghost faults = { λ port. port.faults };

    ghost lends = { λ _. false };

    fn read(&mut self, buf: &mut [u8]) -> Result<usize, Failed>
        ensures bound { ReadsAtMost result buf.new }
        ensures bytes { ReadConsumes (option_and_then R.remaining self.old.reader)
            (option_and_then R.remaining self.new.reader) result buf.new }
        ensures counted { self.old.faults ≤ self.new.faults }
        ensures clean { OnOk result (self.new.faults ≡ self.old.faults) }
        ensures failed { OnErr result (Rose self.old.faults self.new.faults) }

        // Where nothing is there each call fails. Each failure counts, and nothing else does.
        ensures none { is_some self.old.reader ≡ false → IsErr result }
        ensures there { is_some self.new.reader ≡ is_some self.old.reader }
        ensures after { self.new.faults ≡ faults_after self.old.faults result }
    {
        let answer = read_from(&mut self.inner, &mut self.reason, buf);
        if answer.is_err() {
            self.faults = one_more(self.faults);
        }
        answer
    }

    // It lends nothing: a reader gives what it is asked for.
    fn lent(&self) -> Option<&[u8]>
        ensures lent { IfSome result (λ bytes.
            option_and_then R.remaining self.now.reader ≡ Some bytes.now) }
        ensures lends { is_some result ≡ false }
    {
        None
    }

    fn end(&mut self)
        ensures ends { false ≡ true → option_and_then R.remaining self.new.reader ≡ Some [] }
        ensures clean { self.new.faults ≡ self.old.faults }
    {}

    fn give_up(&mut self, _alloc: Global) -> Option<Bytes> {
        None
    }
}

/// A reader, if there is one, is asked so often at most for one read that signals interrupt.
const TRIES: u32 = u32::MAX;

/// One read of the reader, if there is one; again where a signal interrupts it. Where it fails, the
/// reason is the system's.
fn read_from<R: Read>(
    inner: &mut Option<R>,
    reason: &mut Option<ErrorKind>,
    buf: &mut [u8],
) -> Result<usize, Failed>
    ensures bound { ReadsAtMost result buf.new }
    ensures bytes { ReadConsumes (option_and_then R.remaining inner.old)
        (option_and_then R.remaining inner.new) result buf.new }
    ensures there { is_some inner.new ≡ is_some inner.old }
    ensures none { is_some inner.old ≡ false → IsErr result }
{
    for _ in 0..TRIES {
        let answer = read_once(inner, reason, buf);
        if answer.is_ok() || *reason != Some(ErrorKind::Interrupted) {
            return answer;
        }
    }
    Err(Failed)
}

/// One read of the reader, if there is one. Where it fails, the reason is the system's.
fn read_once<R: Read>(
    inner: &mut Option<R>,
    reason: &mut Option<ErrorKind>,
    buf: &mut [u8],
) -> Result<usize, Failed>
    ensures bound { ReadsAtMost result buf.new }
    ensures bytes { ReadConsumes (option_and_then R.remaining inner.old)
        (option_and_then R.remaining inner.new) result buf.new }
    ensures there { is_some inner.new ≡ is_some inner.old }
    ensures none { is_some inner.old ≡ false → IsErr result }
{
    match inner {
        None => Err(Failed),
        Some(reader) => match reader.read(buf) {
            Ok(count) => Ok(count),
            Err(error) => {
                *reason = Some(error.kind());
                Err(Failed)
            }
        },
    }
}

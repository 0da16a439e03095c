ghost use Rattle.std.specs.Prelude.{◌≡◌, ◌+◌, ◌-◌, ◌<◌, ◌≤◌, min, length, take, drop, IfOk, OnOk, OnErr};
ghost use Rattle.std.specs.Io.KnownBytes.{Appends, Keeps};
ghost use Rattle.io_ports.specs.Faults.{Rose};
ghost use Rattle.io_ports.specs.Writing.{WritesFront, WritesPiece};

use crate::{Failed, Sink};

/// A piece has at most so many bytes.
const PIECE: usize = 65_536;

/// Writes the text, in pieces that are each as long as they can be.
pub fn write_all<K: Sink>(sink: &mut K, text: &[u8]) -> Result<(), Failed>
    ensures written { OnOk result (Appends (K.taken sink.old) (K.taken sink.new) text.now) }
    ensures front { OnErr result (WritesFront (K.taken sink.old) (K.taken sink.new) text.now) }
    ensures failed { OnErr result (Rose (K.faults sink.old) (K.faults sink.new)) }
    ensures counted { K.faults sink.old ≤ K.faults sink.new }
    ensures clean { OnOk result (K.faults sink.new ≡ K.faults sink.old) }
{
    let mut written = 0;
    'pieces: while written < text.len() {
        written += write_piece(sink, text, written)?;
    }
    Ok(())
}

/// One write of the next piece of the text.
fn write_piece<K: Sink>(sink: &mut K, text: &[u8], at: usize) -> Result<usize, Failed>
    requires { at < length text.now }
    ensures piece { IfOk result (λ count.
        WritesPiece (K.taken sink.old) (K.taken sink.new) text.now at count) }
    ensures nothing { OnErr result (Keeps (K.taken sink.old) (K.taken sink.new)) }
    ensures failed { OnErr result (Rose (K.faults sink.old) (K.faults sink.new)) }
    ensures counted { K.faults sink.old ≤ K.faults sink.new }
    ensures clean { OnOk result (K.faults sink.new ≡ K.faults sink.old) }
{
    sink.write(piece_at(text, at))
}

/// The next piece of the text.
fn piece_at(text: &[u8], at: usize) -> &[u8]
    requires { at ≤ length text.now }
    ensures { result.now ≡ take (min 65536 (length text.now - at)) (drop at text.now) }
{
    let (_, rest) = text.split_at(at);
    let (piece, _) = rest.split_at(rest.len().min(PIECE));
    piece
}

ghost use Rattle.std.specs.Prelude.{◌≡◌, ◌≢◌, ◌^◌, ◌<◌, ◌≤◌, length, vec_len, IfOk, OnOk, IfSome};
ghost use Rattle.io_ports.specs.Faults.{Rose};
ghost use Rattle.io_ports.specs.Reading.{ReadsWhole, ReadsPiece};

use crate::Source;
use std::alloc::{AllocError, Global};

/// One read takes at most so many bytes.
const BUFFER: usize = 65_536;

/// Why a source was not read to its end.
#[derive(Clone, Copy, Debug, PartialEq, Eq)]
pub enum ReadError {
    /// There is no memory for what it holds.
    NoMemory,
    /// A call of it failed.
    Failed,
    /// It held more than it may.
    TooLong,
}

impl From<AllocError> for ReadError {
    ghost use Rattle.std.specs.Prelude.{◌≡◌};
    ghost use Rattle.io_ports.specs.declared.reading.ReadError.TheVariants.{NoMemory};

    ghost from_gives = { λ _ error. error ≡ NoMemory };

    fn from(_refused: AllocError) -> ReadError {
        ReadError::NoMemory
    }
}

/// All bytes that the source holds, of which there may be at most `limit`.
pub fn read_all<S: Source>(
    alloc: Global,
    source: &mut S,
    limit: usize,
) -> Result<Vec<u8>, ReadError>
    requires { limit < 2 ^ 32 }
    ensures whole { IfOk result (λ bytes.
        ReadsWhole (S.held source.old) (S.held source.new) limit bytes.items) }
    ensures too_long { result ≡ Err ReadError.TooLong
        → IfSome (S.held source.old) (λ held. limit < length held) }
    ensures failed { result ≡ Err ReadError.Failed
        → Rose (S.faults source.old) (S.faults source.new) }
    ensures counted { S.faults source.old ≤ S.faults source.new }
    ensures clean { OnOk result (S.faults source.new ≡ S.faults source.old) }
{
    match source.give_up(alloc) {
        Some(bytes) if bytes.as_slice().len() <= limit => Ok(bytes.into_vec()),
        Some(_bytes) => Err(ReadError::TooLong),
        None => read_pieces(alloc, source, limit),
    }
}

/// The same, read piece by piece.
fn read_pieces<S: Source>(alloc: Global, source: &mut S, limit: usize) -> Result<Vec<u8>, ReadError>
    requires { limit < 2 ^ 32 }
    ensures whole { IfOk result (λ bytes.
        ReadsWhole (S.held source.old) (S.held source.new) limit bytes.items) }
    ensures too_long { result ≡ Err ReadError.TooLong
        → IfSome (S.held source.old) (λ held. limit < length held) }
    ensures failed { result ≡ Err ReadError.Failed
        → Rose (S.faults source.old) (S.faults source.new) }
    ensures counted { S.faults source.old ≤ S.faults source.new }
    ensures clean { OnOk result (S.faults source.new ≡ S.faults source.old) }
{
    let mut buffer = zeros(alloc)?;
    let mut bytes = Vec::new(alloc);
    'turns: while bytes.len() <= limit {
        let count = read_piece(source, &mut buffer, &mut bytes)?;
        if count == 0 {
            return Ok(bytes);
        }
    }
    Err(ReadError::TooLong)
}

/// One read, whose bytes are put behind the others.
fn read_piece<S: Source>(
    source: &mut S,
    buffer: &mut Vec<u8>,
    bytes: &mut Vec<u8>,
) -> Result<usize, ReadError>
    requires { 0 < vec_len buffer.old }
    ensures room { vec_len buffer.new ≡ vec_len buffer.old }
    ensures piece { IfOk result (λ count.
        ReadsPiece (S.held source.old) (S.held source.new) bytes.old.items bytes.new.items count) }
    ensures short { result ≢ Err ReadError.TooLong }
    ensures failed { result ≡ Err ReadError.Failed
        → Rose (S.faults source.old) (S.faults source.new) }
    ensures counted { S.faults source.old ≤ S.faults source.new }
    ensures clean { OnOk result (S.faults source.new ≡ S.faults source.old) }
{
    let Ok(count) = source.read(buffer.as_mut_slice()) else {
        return Err(ReadError::Failed);
    };
    bytes.extend_from_slice(&buffer[..count])?;
    Ok(count)
}

/// Room for one read.
pub(crate) fn zeros(alloc: Global) -> Result<Vec<u8>, AllocError>
    ensures { IfOk result (λ buffer. vec_len buffer ≡ BUFFER) }
{
    vec![in alloc; 0u8; BUFFER]
}

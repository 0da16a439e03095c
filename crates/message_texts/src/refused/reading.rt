ghost use Rattle.std.specs.Prelude.{◌≡◌, ◌≢◌, ◌<◌, ◌^◌, length, Some, IfOk, true, false};
ghost use Rattle.program_input.specs.Refusals.{board_refusal};

use pci_command::NoMemory;
use program_input::read_tree;
use program_status::Status;
use std::alloc::Global;

/// Texts of so many bytes are not read.
pub const TOO_LONG: usize = 0x8000_0000;

/// Whether a text, read as a board, is refused with just this status. A text of 2^31 bytes or more is
/// not read.
pub fn is_refused(alloc: Global, text: &[u8], status: &Status) -> Result<bool, NoMemory>
    ensures yes { IfOk result (λ told. told ≡ true → board_refusal text.now ≡ Some status.now) }
    ensures no { length text.now < 2 ^ 31
        → IfOk result (λ told. told ≡ false → board_refusal text.now ≢ Some status.now) }
{
    if text.len() >= TOO_LONG {
        return Ok(false);
    }
    match read_tree(alloc, text) {
        Ok(_) => Ok(false),
        Err(Status::NoMemory) => Err(NoMemory),
        Err(refusal) => Ok(is_same(&refusal, status)),
    }
}

/// Whether two statuses are one.
fn is_same(a: &Status, b: &Status) -> bool
    ensures yes { result ≡ true → a.now ≡ b.now }
    ensures no { result ≡ false → a.now ≢ b.now }
{
    a == b
}

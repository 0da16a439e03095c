ghost use Rattle.std.specs.Prelude.{◌≡◌, ◌==◌, IfOk};
ghost use Rattle.std.specs.List.{list_all};
ghost use Rattle.import_text.specs.Rows.{has_byte, byte_in, has_bytes, bytes_in, row_text, is_row};
ghost use Rattle.import_text.specs.Rows.{offset_of, row_bytes};

use crate::digits::{behind, byte_at, hex_length, is_hex, number_or_zero, two_digits};
use pci_command::{List, NoMemory};
use std::alloc::Global;

fn has_byte(text: &[u8], k: u8) -> bool
    ensures { result ≡ has_byte text.now k }
{
    let at = 3 * usize::from(k);
    byte_at(text, at) == b' ' && is_hex(byte_at(text, at + 1)) && is_hex(byte_at(text, at + 2))
}

fn byte_in(text: &[u8], k: u8) -> u8
    ensures { result ≡ byte_in text.now k }
{
    let at = 3 * usize::from(k);
    two_digits(byte_at(text, at + 1), byte_at(text, at + 2))
}

fn row_text(line: &[u8]) -> &[u8]
    ensures { result.now ≡ row_text line.now }
{
    behind(line, hex_length(line) + 1)
}

#[tactic(auto, unfolding(crate::specs::Rows::has_bytes))]
fn has_bytes(text: &[u8]) -> bool
    ensures { result ≡ has_bytes text.now }
{
    (0..16u8).all(|k| has_byte(text, k))
}

fn are_spaces(text: &[u8]) -> bool
    ensures { result ≡ list_all (λ byte. byte == 32) text.now }
{
    text.iter().all(|byte| *byte == b' ')
}

/// Whether a line is a row of sixteen bytes.
pub(crate) fn is_row(line: &[u8]) -> bool
    ensures { result ≡ is_row line.now }
{
    let digits = hex_length(line);
    let text = row_text(line);
    (digits == 2 || digits == 3)
        && byte_at(line, digits) == b':'
        && has_bytes(text)
        && are_spaces(behind(text, 48))
}

/// The offset of a row.
pub(crate) fn offset_of(line: &[u8]) -> u32
    ensures { result ≡ offset_of line.now }
{
    number_or_zero(&line[..hex_length(line)], 3)
}

/// The sixteen bytes of a row.
pub(crate) fn row_bytes(alloc: Global, line: &[u8]) -> Result<List<u8>, NoMemory>
    ensures { IfOk result (λ bytes. bytes ≡ row_bytes line.now) }
{
    bytes_in(alloc, row_text(line))
}

#[tactic(auto, unfolding(crate::specs::Rows::bytes_in))]
fn bytes_in(alloc: Global, text: &[u8]) -> Result<List<u8>, NoMemory>
    ensures { IfOk result (λ bytes. bytes ≡ bytes_in text.now) }
{
    let bytes = [
        byte_in(text, 0),
        byte_in(text, 1),
        byte_in(text, 2),
        byte_in(text, 3),
        byte_in(text, 4),
        byte_in(text, 5),
        byte_in(text, 6),
        byte_in(text, 7),
        byte_in(text, 8), // not a limit
        byte_in(text, 9), // not a limit
        byte_in(text, 10),
        byte_in(text, 11),
        byte_in(text, 12),
        byte_in(text, 13),
        byte_in(text, 14),
        byte_in(text, 15),
    ];
    Ok(List::from_vec(Vec::from_slice(alloc, &bytes)?))
}

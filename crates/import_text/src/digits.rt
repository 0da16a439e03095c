ghost use Rattle.std.specs.Prelude.{◌≡◌, ◌<◌, ◌≤◌, drop, length, slice_index};
ghost use Rattle.import_text.specs.Digits.{is_hex, hex_value, two_digits, hex_length};
ghost use Rattle.import_text.specs.Slots.{number_or_zero};
ghost use Rattle.import_text.specs.Regions.{begins_with};
ghost use Rattle.board_text.specs.Numbers.{hex_answer};

use board_text::hex;

/// The byte at a place, and 0 behind the end.
pub(crate) fn byte_at(text: &[u8], at: usize) -> u8
    ensures { result ≡ slice_index text.now at }
{
    text.get(at).copied().unwrap_or(0)
}

/// What stands behind so many bytes.
pub(crate) fn behind(text: &[u8], count: usize) -> &[u8]
    ensures { result.now ≡ drop count text.now }
{
    if count < text.len() {
        &text[count..]
    } else {
        &[]
    }
}

pub(crate) fn begins_with(word: &[u8], text: &[u8]) -> bool
    ensures { result ≡ begins_with word.now text.now }
{
    text.starts_with(word)
}

pub(crate) fn is_hex(byte: u8) -> bool
    ensures { result ≡ is_hex byte }
{
    (b'0'..=b'9').contains(&byte) || (b'a'..=b'f').contains(&byte)
}

pub(crate) fn hex_value(byte: u8) -> u8
    ensures value { result ≡ hex_value byte }
    ensures below { result < 16 }
{
    match byte {
        b'0'..=b'9' => byte - b'0',
        b'a'..=b'f' => byte - b'a' + 10,
        _ => 0,
    }
}

pub(crate) fn two_digits(high: u8, low: u8) -> u8
    ensures { result ≡ two_digits high low }
{
    16 * hex_value(high) + hex_value(low)
}

/// How many digits a text begins with.
pub(crate) fn hex_length(text: &[u8]) -> usize
    ensures value { result ≡ hex_length text.now }
    ensures within { result ≤ length text.now }
{
    text.iter()
        .position(|byte| !is_hex(*byte))
        .unwrap_or(text.len())
}

/// The number that so many digits write, and 0 where they write none.
pub(crate) fn number_or_zero(token: &[u8], digits: u8) -> u32
    requires at_least_one { 1 ≤ digits }
    requires at_most_eight { digits ≤ 8 }
    ensures { result ≡ number_or_zero (hex_answer token.now digits) }
{
    match hex(token, digits) {
        Ok(number) => number,
        Err(_) => 0,
    }
}

ghost use Rattle.std.specs.Prelude.{◌≡◌, ◌+◌, ◌*◌, ◌-◌, ◌<◌, ◌≤◌, ◌^◌, ◌==◌, length, take, min};
ghost use Rattle.std.specs.List.{list_all, position_or_len};
ghost use Rattle.std.specs.Char.{digit_value, is_digit};
ghost use Rattle.std.specs.Str.Parse.{digits_value};
ghost use Rattle.board_text.specs.Numbers.{is_numeral};
ghost use Rattle.import_text.specs.Regions.{indent, unit_value, size_by, size_between, is_close};
ghost use Rattle.import_text.specs.Regions.{size_in, size_at, or_else, last_size, is_region};
ghost use Rattle.import_text.specs.Regions.{indented, region_size, region_number};

use crate::digits::{begins_with, behind, byte_at};
use crate::slot::first;
use board_text::value_of_digit;

fn indent(line: &[u8]) -> usize
    ensures { result ≡ indent line.now }
{
    if byte_at(line, 0) == b'\t' {
        1
    } else if begins_with(b"        ", line) {
        8 // not a limit
    } else {
        0
    }
}

/// What stands behind the tab or the eight spaces with which a line begins.
pub(crate) fn indented(line: &[u8]) -> &[u8]
    ensures { result.now ≡ indented line.now }
{
    let indent = indent(line);
    if indent == 0 {
        &[]
    } else {
        behind(line, indent)
    }
}

fn unit_value(byte: u8) -> u64
    ensures { result ≡ unit_value byte }
{
    match byte {
        b'K' => 0x400,
        b'M' => 0x10_0000,
        b'G' => 0x4000_0000,
        b'T' => 0x100_0000_0000,
        _ => 1,
    }
}

fn is_numeral(digits: &[u8]) -> bool
    ensures { result ≡ is_numeral 10 digits.now }
{
    !digits.is_empty() && are_digits(digits)
}

fn are_digits(digits: &[u8]) -> bool
    ensures { result ≡ list_all (λ byte. is_digit byte 10) digits.now }
{
    digits.iter().all(|byte| value_of_digit(*byte) < 10)
}

// The number that at most ten digits write.
fn decimal(digits: &[u8]) -> u64
    requires { digits_value 10 digits.now < 2 ^ 40 }
    ensures { result ≡ digits_value 10 digits.now }
{
    let mut value = 0;
    for byte in digits {
        value = value * 10 + u64::from(value_of_digit(*byte));
    }
    value
}

fn size_by(digits: &[u8], unit: u64) -> Option<u64>
    ensures { result ≡ size_by digits.now unit }
{
    if is_numeral(digits) && digits.len() <= 10 {
        Some(decimal(digits).saturating_mul(unit))
    } else {
        None
    }
}

fn size_between(text: &[u8], unit: u64) -> Option<u64>
    ensures { result ≡ size_between text.now unit }
{
    if unit == 1 {
        size_by(text, 1)
    } else {
        size_by(first(text, text.len().saturating_sub(1)), unit)
    }
}

fn length_before_close(text: &[u8]) -> usize
    ensures value { result ≡ position_or_len is_close text.now }
    ensures within { result ≤ length text.now }
{
    text.iter()
        .position(|byte| *byte == b']')
        .unwrap_or(text.len())
}

fn size_in(text: &[u8]) -> Option<u64>
    ensures { result ≡ size_in text.now }
{
    let end = length_before_close(text);
    if end < text.len() {
        let unit = unit_value(byte_at(text, end.saturating_sub(1)));
        size_between(first(text, end), unit)
    } else {
        None
    }
}

fn size_at(text: &[u8]) -> Option<u64>
    ensures { result ≡ size_at text.now }
{
    if begins_with(b"[size=", text) {
        size_in(first(behind(text, 6), 12))
    } else {
        None
    }
}

fn last_size(text: &[u8]) -> Option<u64>
    ensures { result ≡ last_size text.now }
{
    let mut found = None;
    let mut left = text;
    while let [_, rest @ ..] = left {
        found = later_or(size_at(left), found);
        left = rest;
    }
    found
}

// What is found further behind counts.
fn later_or(later: Option<u64>, before: Option<u64>) -> Option<u64>
    ensures { result ≡ or_else later before }
{
    match later {
        Some(size) => Some(size),
        None => before,
    }
}

fn is_region(text: &[u8]) -> bool
    ensures { result ≡ is_region text.now }
{
    begins_with(b"Region ", text)
        && b'0' <= byte_at(text, 7)
        && byte_at(text, 7) <= b'5'
        && byte_at(text, 8) == b':' // not a limit
        && byte_at(text, 9) == b' ' // not a limit
}

/// The size that a region line tells.
pub(crate) fn region_size(line: &[u8]) -> Option<u64>
    ensures { result ≡ region_size line.now }
{
    let text = indented(line);
    if is_region(text) {
        last_size(behind(text, 10))
    } else {
        None
    }
}

/// The number of a region line.
pub(crate) fn region_number(line: &[u8]) -> u8
    ensures { result ≡ region_number line.now }
{
    byte_at(indented(line), 7).saturating_sub(b'0')
}

ghost use Rattle.std.specs.Prelude.{◌≡◌, ◌<◌, ◌≤◌, [], ◌∷◌, length, take, slice_index, nat_le};
ghost use Rattle.std.specs.Prelude.{Some, None};
ghost use Rattle.std.specs.Option.{option_map, option_and_then};
ghost use Rattle.std.specs.List.{list_all};
ghost use Rattle.trace_reader.specs.lines.Words.{only_where, answered, has_no_zero_before};
ghost use Rattle.trace_reader.specs.lines.Words.{number_of, at_most, is_lower_case, value_of};
ghost use Rattle.trace_reader.specs.lines.Words.{bus_in, bridge_in, towards, without_last};
ghost use Rattle.trace_reader.specs.lines.Words.{last_byte, lane_in, by_in, target_in};
ghost use Rattle.trace_reader.specs.lines.Words.{begins_header, header_in, outcome_in, phases_in};

use crate::lines::names::Names;
use board_model::Lane;
use board_text::{decimal, hex, value_of_digit};
use history_model::By;
use pci_command::Outcome;

/// A decimal number below 2^32, as it is printed.
pub(crate) fn number_of(word: &[u8]) -> Option<u32>
    ensures { result ≡ number_of word.now }
{
    match word {
        [byte] => number_of_digit(*byte),
        _ => number_of_digits(word),
    }
}

/// The same of one byte.
fn number_of_digit(byte: u8) -> Option<u32>
    ensures { result ≡ number_of (byte ∷ []) }
{
    let value = value_of_digit(byte);
    if value < 10 { Some(value) } else { None }
}

fn number_of_digits(word: &[u8]) -> Option<u32>
    ensures { result ≡ number_of word.now }
{
    if has_no_zero_before(word) {
        decimal(word).ok()
    } else {
        None
    }
}

fn has_no_zero_before(word: &[u8]) -> bool
    ensures { result ≡ has_no_zero_before word.now }
{
    match word {
        [] => false,
        [_] => true,
        [first, ..] => *first != b'0',
    }
}

/// Eight hexadecimal digits in lower case.
pub(crate) fn value_of(word: &[u8]) -> Option<u32>
    ensures { result ≡ value_of word.now }
{
    if word.len() == 8 && is_lower_case(word) {
        hex(word, 8).ok()
    } else {
        None
    }
}

fn is_lower_case(word: &[u8]) -> bool
    ensures { result ≡ list_all is_lower_case word.now }
{
    word.iter().all(|byte| !(b'A'..=b'Z').contains(byte))
}

/// A number of one byte.
fn small_number_of(word: &[u8]) -> Option<u8>
    ensures { result ≡ at_most 255 (number_of word.now) }
{
    let number = number_of(word)?;
    u8::try_from(number).ok()
}

/// A bus of the board.
pub(crate) fn bus_in(names: &Names, word: &[u8]) -> Option<u8>
    ensures { result ≡ bus_in names.now word.now }
{
    let bus = small_number_of(word)?;
    if bus == 0 || names.has_bridge_to(bus) {
        Some(bus)
    } else {
        None
    }
}

/// The secondary bus of a bridge of the board.
pub(crate) fn bridge_in(names: &Names, word: &[u8]) -> Option<u8>
    ensures { result ≡ bridge_in names.now word.now }
{
    let bus = small_number_of(word)?;
    if names.has_bridge_to(bus) {
        Some(bus)
    } else {
        None
    }
}

/// A lane of the board.
pub(crate) fn lane_in(names: &Names, word: &[u8]) -> Option<Lane>
    ensures { result ≡ lane_in names.now word.now }
{
    let (front, last) = word.split_at(word.len().saturating_sub(1));
    match last {
        [b'u'] => lane_towards(names, front, true),
        [b'd'] => lane_towards(names, front, false),
        _ => None,
    }
}

fn lane_towards(names: &Names, word: &[u8], up: bool) -> Option<Lane>
    ensures { result ≡ option_map (towards up) (bridge_in names.now word.now) }
{
    let bus = bridge_in(names, word)?;
    Some(Lane { bus, up })
}

/// An initiator.
pub(crate) fn by_in(names: &Names, word: &[u8]) -> Option<By>
    ensures { result ≡ by_in names.now word.now }
{
    if word == b"m".as_slice() {
        return Some(By::Master);
    }
    let lane = lane_in(names, word)?;
    Some(By::Lane(lane))
}

/// The place of the target of this name.
pub(crate) fn target_in(names: &Names, word: &[u8]) -> Option<u16>
    ensures { result ≡ target_in names.now word.now }
{
    let place = names.target(word)?;
    u16::try_from(place).ok()
}

/// The header of a bridge of the board, named as `=B`.
pub(crate) fn header_in(names: &Names, word: &[u8]) -> Option<u8>
    ensures { result ≡ header_in names.now word.now }
{
    match word {
        [] => None,
        [_, rest @ ..] => bridge_in(names, rest),
    }
}

pub(crate) fn begins_header(word: &[u8]) -> bool
    ensures { result ≡ begins_header word.now }
{
    match word {
        [] => false,
        [first, ..] => *first == b'=',
    }
}

/// How a completion ended its operation.
pub(crate) fn outcome_in(word: &[u8]) -> Option<Outcome>
    ensures { result ≡ outcome_in word.now }
{
    match word {
        b"ok" => Some(Outcome::Written),
        b"abort" => Some(Outcome::Aborted),
        _ => value_of(word).map(Outcome::Value),
    }
}

/// How many data phases went through.
pub(crate) fn phases_in(word: &[u8]) -> Option<u8>
    ensures { result ≡ phases_in word.now }
{
    let number = number_of(word)?;
    if 1 <= number && number <= 8 {
        Some(number as u8)
    } else {
        None
    }
}

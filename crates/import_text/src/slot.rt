ghost use Rattle.std.specs.Prelude.{◌≡◌, ◌≤◌, length, map, take, IfOk};
ghost use Rattle.import_text.specs.Slots.{has_domain, place_start, domain_in, is_place, slot_in};
ghost use Rattle.import_text.specs.Slots.{slot_of, shown, name_of};

use crate::digits::{behind, byte_at, hex_length, hex_value, is_hex, number_or_zero, two_digits};
use pci_command::{List, NoMemory};
use std::alloc::Global;

/// Where a function is: its domain, its bus, its device number there, and its number in the device.
#[derive(Clone, Copy, Debug, Default, PartialEq, Eq, PartialOrd, Ord)]
pub struct DeviceAddress {
    pub domain: u32,
    pub bus: u8,
    pub device: u8,
    pub function: u8,
}

fn has_domain(line: &[u8]) -> bool
    ensures { result ≡ has_domain line.now }
{
    let digits = hex_length(line);
    4 <= digits && digits <= 8 && byte_at(line, digits) == b':' // not a limit
}

/// Where bus, device and function begin.
fn place_start(line: &[u8]) -> usize
    ensures { result ≡ place_start line.now }
{
    if has_domain(line) {
        hex_length(line) + 1
    } else {
        0
    }
}

fn domain_in(line: &[u8]) -> u32
    ensures { result ≡ domain_in line.now }
{
    if has_domain(line) {
        number_or_zero(&line[..hex_length(line)], 8) // not a limit
    } else {
        0
    }
}

fn is_place(text: &[u8]) -> bool
    ensures { result ≡ is_place text.now }
{
    is_hex(byte_at(text, 0))
        && is_hex(byte_at(text, 1))
        && byte_at(text, 2) == b':'
        && is_hex(byte_at(text, 3))
        && is_hex(byte_at(text, 4))
        && byte_at(text, 5) == b'.'
        && b'0' <= byte_at(text, 6)
        && byte_at(text, 6) <= b'7'
        && byte_at(text, 7) == b' '
}

fn slot_in(domain: u32, text: &[u8]) -> DeviceAddress
    ensures { result ≡ slot_in domain text.now }
{
    DeviceAddress {
        domain,
        bus: two_digits(byte_at(text, 0), byte_at(text, 1)),
        device: two_digits(byte_at(text, 3), byte_at(text, 4)),
        function: hex_value(byte_at(text, 6)),
    }
}

/// The slot that a line names, if it is a slot line.
pub(crate) fn slot_of(line: &[u8]) -> Option<DeviceAddress>
    ensures { result ≡ slot_of line.now }
{
    let place = behind(line, place_start(line));
    if is_place(place) {
        Some(slot_in(domain_in(line), place))
    } else {
        None
    }
}

fn shown(byte: u8) -> u8
    ensures { result ≡ shown byte }
{
    if (b' '..=b'~').contains(&byte) {
        byte
    } else {
        b'?'
    }
}

/// The name on a slot line: its first 160 bytes, with a `?` for each outside 20 to 7e.
pub(crate) fn name_of(alloc: Global, line: &[u8]) -> Result<List<u8>, NoMemory>
    ensures { IfOk result (λ name. name ≡ name_of line.now) }
{
    let place = behind(line, place_start(line));
    let rest = behind(place, 8); // not a limit
    shown_bytes(alloc, first(rest, 160))
}

/// At most so many bytes from the beginning on.
pub(crate) fn first(text: &[u8], count: usize) -> &[u8]
    ensures { result.now ≡ take count text.now }
{
    if count < text.len() {
        &text[..count]
    } else {
        text
    }
}

fn shown_bytes(alloc: Global, text: &[u8]) -> Result<List<u8>, NoMemory>
    ensures { IfOk result (λ name. name ≡ map shown text.now) }
{
    let name = text.iter().map(|byte| shown(*byte)).collect(alloc)?;
    Ok(List::from_vec(name))
}

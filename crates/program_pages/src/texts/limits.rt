use crate::texts::places::{byte_at, first_word, word_at};
use board_model::{MOST_CHILDREN, MOST_OPS};
use board_statements::Words;

/// Whether the bus above the bridge of a line has as many bridges as it may have.
pub(super) fn has_most_bridges(before: &[u8], line: &[u8]) -> bool {
    let Some((bus, _)) = buses_of_bridge(line) else {
        return false;
    };
    let mut found: usize = 0;
    for line in before.split(|byte| *byte == b'\n') {
        if matches!(buses_of_bridge(line), Some((above, _)) if above == bus) {
            found = found.saturating_add(1);
        }
    }
    found >= MOST_CHILDREN
}

/// The buses above and below the bridge of a line, if it is the line of one.
fn buses_of_bridge(line: &[u8]) -> Option<(u8, u8)> {
    match first_word(line) {
        b"bridge" => Some((byte_at(line, 3)?, byte_at(line, 1)?)),
        b"header" => {
            let bytes = Words::new(word_at(line, 2)?).header().ok()?;
            Some((*bytes.get(0x18)?, *bytes.get(0x19)?))
        }
        _ => None,
    }
}

/// Whether the last master of a text has as many operations as it may have.
pub(super) fn has_most_operations(text: &[u8]) -> bool {
    let mut count: usize = 0;
    for line in text.split(|byte| *byte == b'\n') {
        count = match first_word(line) {
            b"master" => 0,
            b"" => count,
            _ => count.saturating_add(1),
        };
    }
    count >= MOST_OPS
}

/// The first bus of a board text that a line names and that is not there, and the number of that
/// line.
pub fn bus_not_there(text: &[u8]) -> Option<(u32, u8)> {
    let mut number: u32 = 1;
    for line in text.split(|byte| *byte == b'\n') {
        if let Some(bus) = missing_bus(text, line) {
            return Some((number, bus));
        }
        number = number.saturating_add(1);
    }
    None
}

/// The bus that a bridge is below or an agent is on, where it is not there, as bus 0 always is; or
/// of a discard or drop that of its bridge.
fn missing_bus(text: &[u8], line: &[u8]) -> Option<u8> {
    let (bus, is_there) = match first_word(line) {
        b"bridge" | b"header" => {
            let (above, _) = buses_of_bridge(line)?;
            (above, above == 0)
        }
        b"target" | b"master" => {
            let bus = byte_at(line, 3)?;
            (bus, bus == 0)
        }
        b"discard" | b"drop" => (byte_at(line, 1)?, false),
        _ => return None,
    };
    if is_there || has_bridge(text, bus) {
        None
    } else {
        Some(bus)
    }
}

/// Whether a bridge of a text is one to this bus.
fn has_bridge(text: &[u8], bus: u8) -> bool {
    for line in text.split(|byte| *byte == b'\n') {
        if matches!(buses_of_bridge(line), Some((_, below)) if below == bus) {
            return true;
        }
    }
    false
}

use crate::texts::sentences::{BYTE_ORDER_MARK, CARRIAGE_RETURN, Sentence, is_end_of_line, said};

/// The first line is that of another text.
static NO_FIRST_LINE: [Sentence; 2] = [
    (
        "pciboard",
        "this is a board, and a trace is wanted: pcitree run FILE writes one",
    ),
    (
        "pcidevices",
        "this is a device text, and a trace is wanted: pcitree devices FILE writes one",
    ),
];

/// What is said of the first line of a text that is not that of a trace.
pub fn no_trace_text(input: &[u8], line: &[u8]) -> &'static str {
    match said(&NO_FIRST_LINE, line) {
        Some(text) => text,
        None if line == b"pcitrace 1\r".as_slice() => CARRIAGE_RETURN,
        None if line == b"\xef\xbb\xbfpcitrace 1".as_slice() => BYTE_ORDER_MARK,
        None if input.is_empty() => "the file is empty: a trace begins with pcitrace 1",
        None => "a trace begins with the line pcitrace 1",
    }
}

/// No line is `events`, but with a carriage return, or not even so.
pub fn no_events_text(with_return: bool) -> &'static str {
    if with_return {
        CARRIAGE_RETURN
    } else {
        "no line is events"
    }
}

/// What is said of a line of events that is not read for this place of it.
pub fn unreadable_text(line: &[u8], at: usize) -> &'static str {
    if is_end_of_line(line, at) {
        CARRIAGE_RETURN
    } else {
        "a byte outside 20 to 7e, or a line of more than 256 bytes"
    }
}

/// A word of an event that is at fault.
#[derive(Clone, Copy, Debug, PartialEq, Eq)]
pub enum Piece {
    Target,
    Lane,
    Bus,
    Value,
}

/// What is said of a word of an event that is no such word of the board.
pub fn misread_text(piece: Piece) -> &'static str {
    match piece {
        Piece::Target => "no target of the board has this name",
        Piece::Lane => "no bridge of the board has this lane",
        Piece::Bus => "no bus of the board has this number",
        Piece::Value => "a value is 8 lower-case hexadecimal digits",
    }
}

//! What is said of a line, by its first word.
use crate::texts::board_lines::Case;
use crate::texts::forms::option_at;
use crate::texts::limits::{has_most_bridges, has_most_operations};
use crate::texts::places::{first_word, is_among, word_at};
use board_model::MOST_DWORDS;
use text_faults::LineFault;

/// The first words of some lines, and what is said of these.
pub(super) type Sentence = (&'static str, &'static str);

/// What is said of a carriage return at the end of a line.
pub(super) const CARRIAGE_RETURN: &str =
    "a line ends with a newline alone, and not with a carriage return: tr -d '\\r' < FILE";

/// What is said of ef bb bf at the start of a file.
pub(super) const BYTE_ORDER_MARK: &str = "a byte order mark: the file begins with its first word";

/// What is said of a word behind the last that a line may have.
pub(super) const NOTHING_BEHIND: &str = "nothing stands behind the words of this line";

static NO_FIRST_LINE: [Sentence; 2] = [
    (
        "pcitrace",
        "this is a trace, and a board is wanted: pcitree check FILE judges it",
    ),
    (
        "pcidevices",
        "this is a device text, and a board is wanted: pcitree devices FILE runs it",
    ),
];

static WRONG_WORD: [Sentence; 2] = [
    ("pciboard", "pciboard 1 stands once, at the start"),
    (
        "device handler devices",
        "this line is of a device text, which begins with pcidevices 1",
    ),
];

static TOO_MANY: [Sentence; 3] = [
    (
        "mr mrl mrm ior cfr",
        "behind the words of a read stands is VALUE, or any, or nothing",
    ),
    (
        "bridge",
        "options stand once each, in this order: mem pref io posted delayed abort",
    ),
    (
        "header",
        "options stand once each, in this order: posted delayed",
    ),
];

/// Of lines whose second word is `io`.
static UNALIGNED_PORTS: [Sentence; 1] = [(
    "range abort",
    "an I/O range is a base and a size, both multiples of 4, the size not 0",
)];

static UNALIGNED: [Sentence; 3] = [
    (
        "bridge header",
        "a memory window is a base and a limit: the base ends in 00000, the limit in fffff",
    ),
    (
        "range abort",
        "a memory range is a base and a size, both multiples of 40 (hexadecimal), the size not 0",
    ),
    ("word", "the address of an opening word is a multiple of 4"),
];

static NO_OWNER: [Sentence; 1] = [(
    "id stall burst range abort word",
    "this line says more of a target, and stands behind a target line",
)];

static OVER_LIMIT: [Sentence; 7] = [
    ("bridge header", "a board has at most 31 bridges"),
    ("target master", "a bus has at most 8 agents"),
    ("range", "a target has at most 6 base address registers"),
    ("abort", "a target has at most 6 abort ranges"),
    ("word", "a target has at most 256 opening words"),
    ("discard", "a board has at most 1,024 discards"),
    ("drop", "a board has at most 1,024 drops"),
];

static PAST_ITS_SPACE: [Sentence; 1] = [("range abort", "the range ends behind the last address")];

/// What is said of a line of a board with a fault, by its first word, and of all other lines; of a
/// fault whose sentence is enough nothing.
fn sentences_of(fault: LineFault) -> Option<(&'static [Sentence], &'static str)> {
    Some(match fault {
        LineFault::NoFirstLine => (
            &NO_FIRST_LINE,
            "a board begins with the line pciboard 1, or pciboard 2",
        ),
        LineFault::WrongWord => (
            &WRONG_WORD,
            "no line begins with this word: pcitree help board has those that do",
        ),
        LineFault::TooMany => (&TOO_MANY, NOTHING_BEHIND),
        LineFault::Unaligned => (&UNALIGNED, "the address of an operation is a multiple of 4"),
        LineFault::NoOwner => (&NO_OWNER, "an operation stands behind a master line"),
        LineFault::PastItsBlock => (&[], "the words of a write lie in one block of 64 bytes"),
        LineFault::OverLimit => (
            &OVER_LIMIT,
            "a board has at most 65,536 operations, each try of a poll counted",
        ),
        LineFault::PastItsSpace => (&PAST_ITS_SPACE, "the base of a window is at most its limit"),
        _ => return None,
    })
}

/// The sentence of the row that has the first word of a line.
pub(super) fn said(rows: &[Sentence], line: &[u8]) -> Option<&'static str> {
    let first = first_word(line);
    for row in rows {
        if is_among(first, row.0) {
            return Some(row.1);
        }
    }
    None
}

/// What is said of a line of a board with a fault, if it is something.
pub(super) fn sentence(case: &Case, fault: LineFault) -> Option<&'static str> {
    if fault == LineFault::BadByte {
        return Some(sentence_of_byte(case));
    }
    if let Some(text) = special(case, fault) {
        return Some(text);
    }
    let (rows, others) = sentences_of(fault)?;
    match said(rows, case.line) {
        Some(text) => Some(text),
        None if fault == LineFault::OverLimit && has_most_operations(case.before) => {
            Some("a master has at most 1,024 operations")
        }
        None => Some(others),
    }
}

/// The place of the first word that a write brings and that is too many.
const TOO_MANY_WORDS: usize = 2 + MOST_DWORDS;

/// What is said of a line before its first word is looked at: that it has none, or what stands
/// where it is at fault.
fn special(case: &Case, fault: LineFault) -> Option<&'static str> {
    let (line, place) = (case.line, case.place());
    match fault {
        LineFault::NoFirstLine if case.number == 1 && first_word(line).is_empty() => {
            Some("the file is empty: a board begins with pciboard 1")
        }
        LineFault::Unaligned if option_at(line, place) == Some("io") => {
            Some("an I/O window is a base and a limit: the base ends in 000, the limit in fff")
        }
        LineFault::Unaligned if word_at(line, 1) == Some(b"io".as_slice()) => {
            said(&UNALIGNED_PORTS, line)
        }
        LineFault::PastItsBlock if place >= TOO_MANY_WORDS => Some("a write has at most 8 words"),
        LineFault::OverLimit if has_most_bridges(case.before, line) => {
            Some("a bus has at most 8 bridges")
        }
        _ => None,
    }
}

/// What is said of a byte that may not stand where it stands in a line of a board.
fn sentence_of_byte(case: &Case) -> &'static str {
    let (line, at) = (case.line, case.at);
    if is_end_of_line(line, at) {
        return CARRIAGE_RETURN;
    }
    if case.number == 1 && at == 0 && line.starts_with(b"\xef\xbb\xbf") {
        return BYTE_ORDER_MARK;
    }
    match line.get(at) {
        Some(byte) if *byte >= 0x80 => "a byte outside ASCII, and not in a comment",
        _ => "a byte that is no printing character and no tab",
    }
}

/// Whether a carriage return stands at this place of a line, which is its last byte.
pub(super) fn is_end_of_line(line: &[u8], at: usize) -> bool {
    match line.get(at) {
        Some(byte) => *byte == b'\r' && at.saturating_add(1) == line.len(),
        None => false,
    }
}

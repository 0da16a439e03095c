use crate::texts::forms::{is_of_devices, wanted_of_device};
use crate::texts::places::{byte_at, count_words, first_word, word_at};
use crate::texts::sentences::{NOTHING_BEHIND, Sentence, said};
use crate::texts::text::Text;
use crate::texts::wanted::{WantedWord, WordKind};
use crate::{Spot, line_at};
use board_statements::{Words, has_words, is_word};
use board_text::check_line;

/// The first line is that of another text.
static NO_FIRST_LINE: [Sentence; 2] = [
    (
        "pciboard",
        "this is a board, and a device text is wanted: pcitree run FILE runs it",
    ),
    (
        "pcitrace",
        "this is a trace, and a device text is wanted: pcitree check FILE judges it",
    ),
];

/// A line that has the form of its first word stands behind another than it may.
static MISPLACED: [Sentence; 6] = [
    ("look", "look stands behind a handler line"),
    ("put", "put stands behind a device line"),
    ("get", "get stands behind a device line"),
    ("send", "send stands behind a device line"),
    ("wait", "wait stands behind a device or handler line"),
    ("word", "word stands behind a device or handler line"),
];

/// What is said of the line of this number of a device text, which is none that may stand there,
/// and what of it is pointed at; if something is said.
pub fn text_of_device(input: &[u8], number: u32) -> Option<(Text, Spot)> {
    let spot = Spot::Word(0);
    if let Some(text) = text_of_marks(input, number) {
        return Some((Text::Plain(text), spot));
    }
    let (_, line) = line_at(input, number)?;
    if check_line(line).is_err() || !has_words(line) {
        return None;
    }
    if !is_of_devices(line) {
        let text =
            "no line of devices begins with this word: pcitree help device has those that do";
        return Some((Text::Plain(text), spot));
    }
    match first_misfit(line) {
        Some(found) => Some(found),
        None => Some((Text::Plain(said(&MISPLACED, line)?), spot)),
    }
}

/// What is said of the lines that mark the parts of a device text.
fn text_of_marks(input: &[u8], number: u32) -> Option<&'static str> {
    if number == 1 {
        let (_, line) = line_at(input, 1)?;
        said(&NO_FIRST_LINE, line)
    } else if !has_line(input, b"devices") {
        Some("no line is devices")
    } else if is_past_end(input, number) {
        Some("the last line with words is not end")
    } else {
        None
    }
}

/// Whether the line of this number begins with `end`, or has no byte and none behind it.
fn is_past_end(input: &[u8], number: u32) -> bool {
    match line_at(input, number) {
        None => true,
        Some((at, line)) => at >= input.len() || is_word(first_word(line), b"end"),
    }
}

/// Whether a line of a text has this one word.
fn has_line(text: &[u8], word: &[u8]) -> bool {
    for line in text.split(|byte| *byte == b'\n') {
        if is_word(first_word(line), word) && count_words(line) == 1 {
            return true;
        }
    }
    false
}

/// The first word of a line that is not as it is wanted.
fn first_misfit(line: &[u8]) -> Option<(Text, Spot)> {
    let words = count_words(line);
    for index in 0..words {
        let found = misfit_at(line, index.saturating_add(1));
        if found.is_some() {
            return found;
        }
    }
    None
}

/// What is said of the word of this place of a line, if it is not as it is wanted.
fn misfit_at(line: &[u8], place: usize) -> Option<(Text, Spot)> {
    match (word_at(line, place), wanted_of_device(line, place)) {
        (None, wanted) => Some((Text::Missing(wanted?.0), Spot::BehindWords)),
        (Some(_), None) => Some((Text::Plain(NOTHING_BEHIND), Spot::Word(place))),
        (Some(word), Some(wanted)) => Some((misfit(line, place, wanted, word)?, Spot::Word(place))),
    }
}

fn misfit(line: &[u8], place: usize, wanted: WantedWord, word: &[u8]) -> Option<Text> {
    let (holds, text) = match wanted.1 {
        WordKind::Vectors => (is_vector_count(word), "VECTORS is 1, 2, 4, 8, 16 or 32"),
        WordKind::Vector => (is_below(line, place), "V is below VECTORS"),
        WordKind::Seed => match Words::new(word).hex() {
            Ok(number) => (number <= 0xff, "SEED is at most ff"),
            Err(_) => return WantedWord("SEED", WordKind::Hex(8)).misfit(word), // not a limit
        },
        _ => return wanted.misfit(word),
    };
    if holds { None } else { Some(Text::Plain(text)) }
}

fn is_vector_count(word: &[u8]) -> bool {
    match byte_at(word, 0) {
        Some(count) => count <= 32 && count.is_power_of_two(), // not a limit
        None => false,
    }
}

/// Whether the number at a place of a line is below the one before it.
fn is_below(line: &[u8], place: usize) -> bool {
    match (byte_at(line, place), byte_at(line, place.saturating_sub(1))) {
        (Some(number), Some(count)) => number < count,
        _ => false,
    }
}

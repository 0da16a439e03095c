use crate::Spot;
use crate::texts::forms::wanted_at;
use crate::texts::places::{count_words, word_at};
use crate::texts::sentences::sentence;
use crate::texts::text::Text;
use crate::texts::wanted::{WantedWord, WordKind};
use board_statements::{first_line, has_words};
use text_faults::LineFault;

/// A line at fault.
#[derive(Clone, Copy)]
pub struct Case<'a> {
    /// The lines before it.
    pub before: &'a [u8],
    pub line: &'a [u8],
    /// Its number, from 1.
    pub number: u32,
    /// What of it is pointed at, and the place of its first byte.
    pub spot: Spot,
    pub at: usize,
}

impl<'a> Case<'a> {
    /// The place of the word that is pointed at.
    pub(super) fn place(&self) -> usize {
        match self.spot {
            Spot::Word(place) => place,
            Spot::BehindLimit | Spot::BadByte | Spot::BehindWords => 0,
        }
    }
}

/// What is said of a line of a board in place of the sentence of the fault, if it is something.
pub fn text_of_line(case: &Case, fault: LineFault) -> Option<Text> {
    let Case { line, before, .. } = *case;
    let place = case.place();
    match fault {
        LineFault::Missing => Some(Text::Missing(wanted_at(line, count_words(line))?.0)),
        LineFault::IllFormed => {
            wanted_at(line, place)?.ill_formed(word_at(line, place)?, is_wide(before))
        }
        LineFault::WrongWord if place > 0 => match wanted_at(line, place)? {
            WantedWord(word, WordKind::Fixed) => Some(Text::Here(word)),
            _ => None,
        },
        _ => Some(Text::Plain(sentence(case, fault)?)),
    }
}

/// Whether a text that begins so may have addresses of 64 bits.
pub fn is_wide(before: &[u8]) -> bool {
    for line in before.split(|byte| *byte == b'\n') {
        if has_words(line) {
            return first_line(line).unwrap_or(false);
        }
    }
    false
}

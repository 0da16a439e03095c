use crate::help::Shown;
use crate::{FORMS, Part};
use std::fmt;

/// What the word at a place has to be, behind words that begin a form but for it.
#[derive(Clone, Copy, Debug)]
pub(crate) enum Wanted {
    /// As a form has it.
    Part(Part),
    /// What stands behind a word with which the program speaks of itself.
    Operand(&'static str),
    /// No word.
    Nothing,
}

/// What the word at this place, from 1 on, has to be.
pub(crate) fn wanted_at(words: &[String], place: u32) -> Wanted {
    match (words, place) {
        ([first, ..], 1) if first.as_str() == "explain" => Wanted::Operand("CODE"),
        ([first, ..], 1) if first.as_str() == "help" || first.as_str() == "--help" => {
            Wanted::Operand("WORD")
        }
        _ => match FORMS
            .iter()
            .find_map(|form| part_at(form.row().parts, words, place))
        {
            Some(part) => Wanted::Part(part),
            None => Wanted::Nothing,
        },
    }
}

/// The part of this place, where the words before it are those of the form.
fn part_at(parts: &[Part], words: &[String], place: u32) -> Option<Part> {
    match (parts, words) {
        ([part, ..], _) if place == 0 => Some(*part),
        ([part, parts @ ..], [word, words @ ..]) if may_be(*part, word.as_str()) => {
            part_at(parts, words, place - 1)
        }
        _ => None,
    }
}

/// Whether the word is the one that the part has, if it has one.
fn may_be(part: Part, word: &str) -> bool {
    match part {
        Part::Word(text) => text == word,
        _ => true,
    }
}

impl Part {
    /// What is wrong with a word that was to be so.
    pub(crate) fn write_unfit<W: fmt::Write>(
        self,
        f: &mut fmt::Formatter<W>,
        word: &str,
    ) -> fmt::Result {
        let shown = Shown(word);
        match self {
            Part::Last if is_decimal(word) => writeln!(f, "{shown} is below FIRST"),
            Part::Rounds => writeln!(f, "{shown} is not a number from 1 to 300"),
            Part::First => writeln!(
                f,
                "{shown} is not the number of an event or an operation, such as cpu.1"
            ),
            Part::Last => writeln!(f, "{shown} is not the number of an event"),
            Part::Operation(_) => writeln!(f, "{shown} is not an operation, such as cpu.1"),
            Part::Word(_) | Part::File | Part::Log => {
                writeln!(f, "{shown} is not the name of a file")
            }
        }
    }
}

fn is_decimal(word: &str) -> bool {
    (1..=10).contains(&word.len())
        && word
            .as_bytes()
            .iter()
            .all(|byte| matches!(byte, b'0'..=b'9'))
}

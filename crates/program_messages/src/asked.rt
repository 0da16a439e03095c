use program_pages::{Codes, Page, explain};
use program_words::{Help, VERSION, WordHelp, word_help};
use std::fmt;

/// What the program is asked for.
#[derive(Clone, Copy, Debug)]
pub enum Asked<'a> {
    /// What a form of words says, or what is of no form.
    Work,
    Help,
    HelpOf(WordHelp<'a>),
    Version,
    Explain(&'static Page),
    Codes,
    /// Of one of these forms, but for the word at this place.
    Misfit(u32),
}

/// What the program says of itself; nothing of words that it does not answer so.
impl<'a> fmt::Display for Asked<'a> {
    fn fmt<W: fmt::Write>(&self, f: &mut fmt::Formatter<W>) -> fmt::Result {
        match self {
            Asked::Work | Asked::Misfit(_) => Ok(()),
            Asked::Help => write!(f, "{Help}"),
            Asked::HelpOf(word) => write!(f, "{word}"),
            Asked::Version => writeln!(f, "{VERSION}"),
            Asked::Explain(page) => write!(f, "{page}"),
            Asked::Codes => write!(f, "{Codes}"),
        }
    }
}

/// `--help`, `help`, `-h`, `help WORD`, `--help WORD`, `WORD --help`, `WORD -h`, `--version`, `explain`
/// or `explain CODE`.
pub fn asked_for(words: &[String]) -> Asked<'_> {
    match words {
        [word] => asked_by_one(word.as_str()),
        [word, flag] if is_help(word.as_str(), flag.as_str()) => help_of(word.as_str()),
        [word, other, more @ ..] => match asked_by_two(word.as_str(), other.as_str()) {
            Asked::Work => Asked::Work,
            Asked::Misfit(place) => Asked::Misfit(place),
            asked if more.is_empty() => asked,
            _ => Asked::Misfit(2),
        },
        [] => Asked::Work,
    }
}

/// Whether help of a word is asked for behind it.
fn is_help(word: &str, flag: &str) -> bool {
    matches!(flag, "--help" | "-h") && word_help(word).is_some()
}

fn help_of(word: &str) -> Asked<'_> {
    word_help(word).map_or(Asked::Misfit(1), Asked::HelpOf)
}

fn asked_by_one(word: &str) -> Asked<'_> {
    match word {
        "--help" | "help" | "-h" => Asked::Help,
        "--version" => Asked::Version,
        "explain" => Asked::Codes,
        _ => Asked::Work,
    }
}

fn asked_by_two<'a>(word: &str, other: &'a str) -> Asked<'a> {
    match word {
        "--help" | "help" if other == "codes" => Asked::Codes,
        "--help" | "help" => help_of(other),
        "explain" => match explain(other) {
            Some(page) => Asked::Explain(page),
            None => Asked::Misfit(1),
        },
        "--version" => Asked::Misfit(1),
        _ => Asked::Work,
    }
}

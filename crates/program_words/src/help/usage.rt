use crate::FORMS;
use crate::help::call::Call;
use crate::help::{Help, OWN_WORDS, Shown, Wanted, begins, near, wanted_at, word_help};
use std::fmt;

/// What is said behind the first line where words are of no form: what is wrong with the word that
/// does not fit, or which one is missing; how the command is called; and where there is more. With no
/// words at all that is the help.
#[derive(Clone, Copy, Debug)]
pub struct UsageHelp<'a> {
    words: &'a [String],
    place: u32,
}

/// The same, of these words, and the place from 0.
pub fn usage_help(words: &[String], place: u32) -> UsageHelp<'_> {
    UsageHelp { words, place }
}

impl<'a> fmt::Display for UsageHelp<'a> {
    fn fmt<W: fmt::Write>(&self, f: &mut fmt::Formatter<W>) -> fmt::Result {
        let word = self
            .words
            .get(self.place as usize)
            .map(|word| word.as_str());
        match (self.words, word) {
            ([], _) => write!(f, "{Help}"),
            ([first, ..], Some(word)) => match self.listed(first.as_str()) {
                Some((kind, lists)) => write_unknown(f, word, kind, lists),
                None => {
                    self.write_misfit(f, first.as_str(), word)?;
                    write_usage(f, command_of(first.as_str()))
                }
            },
            ([first, ..], None) => {
                write!(f, "missing argument: ")?;
                match wanted_at(self.words, self.place) {
                    Wanted::Part(part) => writeln!(f, "{}", part.shown())?,
                    Wanted::Operand(name) => writeln!(f, "{name}")?,
                    Wanted::Nothing => writeln!(f, "FILE")?,
                }
                write_usage(f, command_of(first.as_str()))
            }
        }
    }
}

impl<'a> UsageHelp<'a> {
    /// What the word at the place was to be, where the program lists all that it may be, and the command
    /// that does so.
    fn listed(&self, first: &str) -> Option<(&'static str, &'static str)> {
        match (self.place, first) {
            (0, _) => Some(("a pcitree command", "help")),
            (1, "help" | "--help") => Some(("a command or a topic", "help")),
            (1, "explain") => Some(("a code", "explain")),
            _ => None,
        }
    }

    fn write_misfit<W: fmt::Write>(
        &self,
        f: &mut fmt::Formatter<W>,
        first: &str,
        word: &str,
    ) -> fmt::Result {
        let shown = Shown(word);
        match wanted_at(self.words, self.place) {
            _ if word.starts_with("-") => writeln!(f, "unknown option {shown}"),
            Wanted::Part(part) => part.write_unfit(f, word),
            Wanted::Operand(_) => writeln!(f, "unexpected argument {shown}"),
            Wanted::Nothing => match taken_by(first).filter(|_| self.place == 2) {
                Some(taken) => {
                    writeln!(f, "unexpected argument {shown}: {first} takes one {taken}")
                }
                None => writeln!(f, "unexpected argument {shown}"),
            },
        }
    }
}

/// What a command takes that has one word behind it in its first form.
fn taken_by(first: &str) -> Option<&'static str> {
    let form = FORMS.iter().find(|form| begins(form.row().parts, first))?;
    match form.row().parts {
        [_, part] => Some(part.shown()),
        _ => None,
    }
}

fn write_unknown<W: fmt::Write>(
    f: &mut fmt::Formatter<W>,
    word: &str,
    kind: &str,
    lists: &str,
) -> fmt::Result {
    write!(f, "{} is not {kind}", Shown(word))?;
    if let Some(meant) = near(word).filter(|_| lists == "help") {
        write!(f, " (did you mean `{meant}`?)")?;
    }
    writeln!(f, "; pcitree {lists} lists them")
}

fn command_of(first: &str) -> &str {
    match first {
        "--help" => "help",
        _ => first,
    }
}

/// How the command is called, and where there is more.
fn write_usage<W: fmt::Write>(f: &mut fmt::Formatter<W>, command: &str) -> fmt::Result {
    for form in &FORMS {
        let row = form.row();
        if begins(row.parts, command) {
            Call::of_row(row).write_usage(f)?;
        }
    }
    for own in &OWN_WORDS {
        if own.word == command {
            Call::of_own(own).write_usage(f)?;
        }
    }
    match word_help(command) {
        Some(_) => writeln!(f, "more: pcitree help {command}"),
        None => Ok(()),
    }
}

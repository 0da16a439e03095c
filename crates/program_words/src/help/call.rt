use crate::help::OwnWord;
use crate::{FormRow, Part};
use std::fmt;

/// Where the help lines begin.
const COLUMN: usize = 24;

/// The words of one way to call the program.
#[derive(Clone, Copy, Debug)]
enum CallWords {
    Parts(&'static [Part], Files),
    Own(&'static OwnWord),
}

/// How many files it takes.
#[derive(Clone, Copy, Debug, PartialEq, Eq)]
enum Files {
    One,
    Several,
}

/// One way to call the program, with what the help says of it.
#[derive(Clone, Copy, Debug)]
pub(crate) struct Call {
    words: CallWords,
    line: &'static str,
    more: &'static str,
}

impl Call {
    pub(crate) fn of_row(row: FormRow) -> Call {
        Call {
            words: CallWords::Parts(
                row.parts,
                if row.each { Files::Several } else { Files::One },
            ),
            line: row.line,
            more: row.more,
        }
    }

    pub(crate) fn of_own(own: &'static OwnWord) -> Call {
        Call {
            words: CallWords::Own(own),
            line: own.line,
            more: own.more,
        }
    }

    /// The row of it in the short help.
    pub(crate) fn write_row<W: fmt::Write>(&self, f: &mut fmt::Formatter<W>) -> fmt::Result {
        let words = self.words;
        write!(f, "  {words}")?;
        for _ in words.width()..COLUMN {
            f.write_char(' ')?;
        }
        writeln!(f, " {}", self.line)
    }

    /// The line that says how it is called.
    pub(crate) fn write_usage<W: fmt::Write>(&self, f: &mut fmt::Formatter<W>) -> fmt::Result {
        let words = self.words;
        writeln!(f, "usage: pcitree {words}")
    }

    /// All that the help says of it.
    pub(crate) fn write_whole<W: fmt::Write>(&self, f: &mut fmt::Formatter<W>) -> fmt::Result {
        let words = self.words;
        writeln!(f, "pcitree {words}: {}\n\n{}", self.line, self.more)
    }
}

impl CallWords {
    /// How many columns they take.
    fn width(self) -> usize {
        match self {
            CallWords::Parts(parts, files) => parts
                .iter()
                .fold(files.shown().len(), |width, part| {
                    width.saturating_add(part.shown().len()).saturating_add(1)
                })
                .saturating_sub(1),
            CallWords::Own(own) => own.word.len().saturating_add(own.operand.len()),
        }
    }
}

impl Files {
    /// What stands behind the last word, where it is one of several.
    fn shown(self) -> &'static str {
        match self {
            Files::One => "",
            Files::Several => "..",
        }
    }
}

impl fmt::Display for CallWords {
    fn fmt<W: fmt::Write>(&self, f: &mut fmt::Formatter<W>) -> fmt::Result {
        match self {
            CallWords::Parts(parts, files) => {
                for (index, part) in parts.iter().enumerate() {
                    if index > 0 {
                        f.write_char(' ')?;
                    }
                    f.write_str(part.shown())?;
                }
                f.write_str(files.shown())
            }
            CallWords::Own(own) => write!(f, "{}{}", own.word, own.operand),
        }
    }
}

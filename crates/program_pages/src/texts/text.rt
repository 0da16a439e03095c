use std::fmt;

/// A text of a case.
#[derive(Clone, Copy, Debug, PartialEq, Eq)]
pub enum Text {
    Plain(&'static str),
    /// What the word of its place is, or one of these.
    Here(&'static str),
    /// What the word would be that is missing.
    Missing(&'static str),
    /// Of what there are so many hexadecimal digits at most.
    Digits {
        word: &'static str,
        most: u8,
    },
    /// What is a decimal number from one to another.
    Decimal {
        word: &'static str,
        low: u32,
        high: u32,
    },
    /// No line has a bridge to this bus.
    NoBus(u8),
}

impl fmt::Display for Text {
    fn fmt<W: fmt::Write>(&self, f: &mut fmt::Formatter<W>) -> fmt::Result {
        match *self {
            Text::Plain(text) => f.write_str(text),
            Text::Here(word) => write!(f, "the word here is {word}"),
            Text::Missing(word) => write!(f, "a word is missing: {word}"),
            Text::Digits { word, most } => write!(f, "{word} is 1 to {most} hexadecimal digits"),
            Text::Decimal { word, low, high } => {
                write!(f, "{word} is from {low} to {high}, in decimal")
            }
            Text::NoBus(bus) => {
                write!(
                    f,
                    "bus {bus} is not there: no bridge line begins with bridge {bus}"
                )
            }
        }
    }
}

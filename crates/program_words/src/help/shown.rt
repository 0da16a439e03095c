use std::fmt;

/// The most letters of a word that are shown.
const SHOWN: usize = 90;

/// A word of a call in a message: its first letters, with `?` for what does not print.
#[derive(Clone, Copy, Debug)]
pub(crate) struct Shown<'a>(pub(crate) &'a str);

impl<'a> fmt::Display for Shown<'a> {
    fn fmt<W: fmt::Write>(&self, f: &mut fmt::Formatter<W>) -> fmt::Result {
        f.write_char('`')?;
        for letter in self.0.chars().take(SHOWN) {
            f.write_char(match letter {
                ' '..='~' => letter,
                _ => '?',
            })?;
        }
        f.write_char('`')
    }
}

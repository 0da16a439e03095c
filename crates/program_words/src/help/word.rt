ghost use Rattle.std.specs.Prelude.{◌≡◌, map, IsSome, IsTrue};
ghost use Rattle.std.specs.List.{list_any};
ghost use Rattle.program_words.specs.declared.TheConstants.{FORMS};
ghost use Rattle.program_words.specs.help.Words.{begins, is_own};
ghost use Rattle.program_words.specs.Shapes.{parts_of, shape_of};

use crate::help::call::Call;
use crate::help::{OWN_WORDS, OwnWord, TOPICS};
use crate::{FORMS, Part};
use std::fmt;

/// What the program says of a word that it may be called with first, or of a topic.
#[derive(Clone, Copy, Debug)]
pub struct WordHelp<'a> {
    word: &'a str,
}

/// The help of a word, if it is one of the program's or a topic.
pub fn word_help(word: &str) -> Option<WordHelp<'_>>
    ensures forms { IsTrue (list_any (λ form. begins word.now (parts_of form)) FORMS) →
        IsSome result }
{
    if begins_form(word) || is_one_of(&OWN_WORDS, word) || is_topic(word) {
        Some(WordHelp { word })
    } else {
        None
    }
}

/// Whether a form of words begins with this one.
fn begins_form(word: &str) -> bool
    ensures { result ≡ list_any (λ form. begins word.now (parts_of form)) FORMS }
{
    FORMS.iter().any(|form| begins(form.row().parts, word))
}

pub(crate) fn begins(parts: &[Part], word: &str) -> bool
    ensures { result ≡ begins word.now (map shape_of parts.now) }
{
    match parts {
        [] => false,
        [part, ..] => match *part {
            Part::Word(text) => text == word,
            _ => false,
        },
    }
}

/// Whether it is one of these.
pub fn is_one_of(own_words: &[OwnWord], word: &str) -> bool
    ensures { result ≡ list_any (is_own word.now) own_words.now }
{
    own_words.iter().any(|own| own.word == word)
}

fn is_topic(word: &str) -> bool {
    TOPICS.iter().any(|topic| topic.word == word)
}

impl<'a> fmt::Display for WordHelp<'a> {
    fn fmt<W: fmt::Write>(&self, f: &mut fmt::Formatter<W>) -> fmt::Result {
        let mut is_first = true;
        for form in &FORMS {
            let row = form.row();
            if begins(row.parts, self.word) {
                if !is_first {
                    f.write_char('\n')?;
                }
                is_first = false;
                Call::of_row(row).write_whole(f)?;
            }
        }
        for own in &OWN_WORDS {
            if own.word == self.word {
                Call::of_own(own).write_whole(f)?;
            }
        }
        self.write_topics(f)
    }
}

impl<'a> WordHelp<'a> {
    /// The topic of this word, or that with which the help of the word ends.
    fn write_topics<W: fmt::Write>(&self, f: &mut fmt::Formatter<W>) -> fmt::Result {
        for topic in &TOPICS {
            if topic.word == self.word {
                f.write_str(topic.text)?;
            } else if topic.behind == Some(self.word) {
                write!(f, "\n{}", topic.text)?;
            }
        }
        Ok(())
    }
}

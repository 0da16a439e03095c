//! The lines that mark the parts of a text.

ghost use Rattle.std.specs.Prelude.{◌≡◌, ◌∷◌, []};
ghost use Rattle.board_text.specs.Lines.{line_fault};
ghost use Rattle.board_text.specs.Tokens.{words_of};
ghost use Rattle.dma_agents.specs.Made.{same_words, is_faultless, is_line};

use board_statements::{Words, is_word};
use board_text::check_line;

/// Whether a line has at most 256 bytes, all of them allowed.
pub(crate) fn is_faultless(line: &[u8]) -> bool
    ensures { result ≡ is_faultless (line_fault line.now) }
{
    check_line(line).is_ok()
}

/// Whether a line may be read and has this one word.
pub(crate) fn is_one_word(line: &[u8], expected: &[u8]) -> bool
    ensures { result ≡ is_line (expected.now ∷ []) line.now }
{
    is_faultless(line) && has_one_word(line, expected)
}

#[tactic(auto, using(crate::proofs::WordsLemmas::says_word))]
fn has_one_word(line: &[u8], expected: &[u8]) -> bool
    ensures { result ≡ same_words (words_of line.now) (expected.now ∷ []) }
{
    let mut words = Words::new(line);
    match words.take() {
        Ok(word) => is_word(word, expected) && words.is_done(),
        Err(_) => false,
    }
}

/// Whether a line may be read and has these two words.
pub(crate) fn is_two_words(line: &[u8], first: &[u8], second: &[u8]) -> bool
    ensures { result ≡ is_line (first.now ∷ second.now ∷ []) line.now }
{
    is_faultless(line) && has_two_words(line, first, second)
}

#[tactic(auto, using(crate::proofs::WordsLemmas::says_words, crate::proofs::WordsLemmas::one_alone))]
fn has_two_words(line: &[u8], first: &[u8], second: &[u8]) -> bool
    ensures { result ≡ same_words (words_of line.now) (first.now ∷ second.now ∷ []) }
{
    let mut words = Words::new(line);
    let Ok(word) = words.take() else {
        return false;
    };
    let Ok(version) = words.take() else {
        return false;
    };
    is_word(word, first) && is_word(version, second) && words.is_done()
}

ghost use Rattle.std.specs.Prelude.{◌≡◌, ◌==◌, ◌<◌, ◌≤◌, ◌^◌, [], ◌∷◌, length, codes};
ghost use Rattle.std.specs.Prelude.{IfSome, MatchOption};
ghost use Rattle.std.specs.List.{All};
ghost use Rattle.board_text.specs.Tokens.{uncommented, words_in, words_of};
ghost use Rattle.observe_log.specs.Logs.{is_word_alone};
ghost use Rattle.observe_log.specs.Plain.{StandsAlone};
ghost use Rattle.observe_log.specs.Front.{TakesNumber, TakesTimes, EndsWord};

use crate::line::number::leading_number;
use board_statements::is_word;
use board_text::{length_before_comment, next_word};
use std::marker::Model;

/// The words of a line that are left, each of which is cut once.
#[derive(Drop)]
pub(crate) struct LineWords<'a> {
    // What is left of it, without a comment.
    rest: &'a [u8],
}

impl<'a> Model for LineWords<'a> {
    ghost use Rattle.std.specs.Prelude.{ℕ, List};
    ghost use Rattle.std.specs.List.{All};
    ghost use Rattle.board_text.specs.Tokens.{words_in};
    ghost use Rattle.observe_log.specs.Plain.{StandsAlone};

    ghost Value = { List (List ℕ) };

    ghost view = { λ words. words_in words.rest.now };

    ghost invariant = { λ words. All StandsAlone (words_in words.rest.now) };
}

impl<'a> LineWords<'a> {
    /// All words of a line.
    pub(crate) fn new(line: &'a [u8]) -> LineWords<'a>
        ensures { result ≡ words_of line.now }
    {
        let (rest, _comment) = line.split_at(length_before_comment(line));
        LineWords { rest }
    }

    /// All words of a line without a comment.
    pub(crate) fn of_plain(line: &'a [u8]) -> LineWords<'a>
        requires { uncommented line.now ≡ line.now }
        ensures { result ≡ words_of line.now }
    {
        LineWords { rest: line }
    }

    /// Whether no word is left.
    pub(crate) fn is_done(&self) -> bool
        ensures { result ≡ (length self.now == 0) }
    {
        next_word(self.rest).is_none()
    }

    /// Whether `end` alone is left.
    pub(crate) fn is_end(&self) -> bool
        ensures { result ≡ is_word_alone (codes "end") self.now }
    {
        match self.rest {
            // As most lines begin.
            [b'0'..=b'9', ..] => false,
            _ => is_end_alone(self.rest),
        }
    }

    /// Takes the next word.
    pub(crate) fn take(&mut self) -> Option<&'a [u8]>
        ensures { MatchOption result (self.old ≡ [])
            (λ word. (self.old ≡ word.now ∷ self.new) × StandsAlone word.now) }
    {
        let (word, behind) = next_word(self.rest)?;
        self.rest = without_space(behind);
        Some(word)
    }

    /// Takes the next word, if it is a number of 1 to `most` digits of this base: the number. Else,
    /// or where something else than a space stands behind it, nothing is taken.
    #[inline(always)]
    pub(crate) fn take_number(&mut self, radix: u32, most: usize) -> Option<u64>
        requires base { 0 < radix }
        requires letters { radix ≤ 36 }
        requires fits { radix ^ most ≤ 2 ^ 64 }
        ensures taken { TakesNumber radix most result self.old self.new }
        ensures below { IfSome result (λ number. number < radix ^ most) }
    {
        let (number, behind) = leading_number(self.rest, radix, most)?;
        self.rest = behind_word(behind)?;
        Some(number)
    }

    /// Takes the next word, if it is `START-END` or `START`: the two times. Else, or where
    /// something else than a space stands behind it, nothing is taken.
    pub(crate) fn take_times(&mut self) -> Option<(u64, u64)>
        ensures { TakesTimes result self.old self.new }
    {
        let (start, behind) = leading_number(self.rest, 10, 18)?;
        let Some(later) = behind_dash(behind) else {
            self.rest = behind_word(behind)?;
            return Some((start, start));
        };
        let (end, behind) = leading_number(later, 10, 18)?;
        if end < start {
            return None;
        }
        self.rest = behind_word(behind)?;
        Some((start, end))
    }
}

fn is_end_alone(text: &[u8]) -> bool
    ensures { result ≡ is_word_alone (codes "end") (words_in text.now) }
{
    match next_word(text) {
        Some((word, rest)) => is_word(word, b"end") && next_word(rest).is_none(),
        None => false,
    }
}

/// A text without the space that it begins with, if it does.
fn without_space(text: &[u8]) -> &[u8]
    ensures { words_in result.now ≡ words_in text.now }
{
    match text {
        [b' ', behind @ ..] => behind,
        _ => text,
    }
}

/// What stands behind the space, if one stands here, or the line ends: so that a word ends here.
fn behind_word(text: &[u8]) -> Option<&[u8]>
    ensures { IfSome result (λ behind. EndsWord text.now behind.now) }
{
    match text {
        [] => Some(text),
        [b' ', behind @ ..] => Some(behind),
        _ => None,
    }
}

/// What stands behind the `-`, if one stands here.
fn behind_dash(text: &[u8]) -> Option<&[u8]>
    ensures { IfSome result (λ later. text.now ≡ 45 ∷ later.now) }
{
    match text {
        [b'-', later @ ..] => Some(later),
        _ => None,
    }
}

ghost use Rattle.std.specs.Prelude.{◌≡◌, ◌==◌, [], ◌∷◌, length, MatchResult};
ghost use Rattle.std.specs.Prelude.{if◌then◌else◌};
ghost use Rattle.std.specs.Str.{bytes_eq};
ghost use Rattle.board_text.specs.Tokens.{words_of, words_in};
ghost use Rattle.board_statements.specs.Words.{Gives, begins_with, behind_first, hex, decimal};
ghost use Rattle.board_statements.specs.Words.{fixed, name, long, data_word, header_bytes};

use crate::kinds::{data_word_of, decimal_of, fixed_of, header_of, hex_of, long_of, name_of};
use board_model::Name;
use board_text::{length_before_comment, next_word};
use pci_command::Phase;
use std::marker::Model;
use text_faults::LineFault;

/// The words of a line that are left, of which the next one is the first.
#[derive(Drop)]
pub struct Words<'a> {
    // Without a comment.
    rest: &'a [u8],
}

impl<'a> Model for Words<'a> {
    ghost use Rattle.std.specs.Prelude.{ℕ, List};
    ghost use Rattle.board_text.specs.Tokens.{words_in};

    ghost Value = { List (List ℕ) };

    ghost view = { λ words. words_in words.rest.now };
}

impl<'a> Words<'a> {
    /// All words of a line.
    pub fn new(line: &'a [u8]) -> Words<'a>
        ensures { result ≡ words_of line.now }
    {
        let (rest, _comment) = line.split_at(length_before_comment(line));
        Words { rest }
    }

    /// Whether no word is left.
    pub fn is_done(&self) -> bool
        ensures { result ≡ (length self.now == 0) }
    {
        next_word(self.rest).is_none()
    }

    /// How many words are left.
    pub fn left(&self) -> usize
        ensures { result ≡ length self.now }
    {
        count_words(self.rest)
    }

    /// Takes the next word.
    pub fn take(&mut self) -> Result<&'a [u8], LineFault>
        ensures { MatchResult result (λ word. self.old ≡ word.now ∷ self.new)
            (λ fault. (fault ≡ LineFault.Missing) × (self.old ≡ [])) }
    {
        match next_word(self.rest) {
            None => Err(LineFault::Missing),
            Some((word, rest)) => {
                self.rest = rest;
                Ok(word)
            }
        }
    }

    /// Whether the next word is the expected one, which is then taken.
    pub fn skips(&mut self, expected: &[u8]) -> bool
        ensures tells { result ≡ begins_with expected.now self.old }
        ensures takes { self.new ≡
            (if begins_with expected.now self.old then behind_first self.old else self.old) }
    {
        match next_word(self.rest) {
            Some((word, rest)) if is_word(word, expected) => {
                self.rest = rest;
                true
            }
            _ => false,
        }
    }

    /// The next word as a fixed one.
    pub fn fixed(&mut self, expected: &[u8]) -> Result<(), LineFault>
        ensures { Gives result self.new (fixed expected.now self.old) }
    {
        fixed_of(self.take()?, expected)
    }

    /// The next word as a decimal number from `low` to `high`.
    pub fn decimal(&mut self, low: u32, high: u32) -> Result<u32, LineFault>
        ensures { Gives result self.new (decimal low high self.old) }
    {
        decimal_of(self.take()?, low, high)
    }

    /// The same of a number of a byte.
    pub fn decimal_byte(&mut self, low: u8, high: u8) -> Result<u8, LineFault>
        ensures { Gives result self.new (decimal low high self.old) }
    {
        let number = decimal_of(self.take()?, u32::from(low), u32::from(high))?;
        Ok(number as u8)
    }

    /// The next word as a number of 32 bits.
    pub fn hex(&mut self) -> Result<u32, LineFault>
        ensures { Gives result self.new (hex 8 self.old) }
    {
        hex_of(self.take()?, 8)
    }

    /// The next word as a number of 16 bits.
    pub fn hex_half(&mut self) -> Result<u16, LineFault>
        ensures { Gives result self.new (hex 4 self.old) }
    {
        let number = hex_of(self.take()?, 4)?;
        Ok(number as u16)
    }

    /// The next word as an address, a size or a limit that may have 64 bits in a wide text.
    pub fn long(&mut self, wide: bool) -> Result<u64, LineFault>
        ensures { Gives result self.new (long wide self.old) }
    {
        long_of(self.take()?, wide)
    }

    /// The next word as the bytes of a header.
    pub fn header(&mut self) -> Result<[u8; 64], LineFault>
        ensures { Gives result self.new (header_bytes self.old) }
    {
        header_of(self.take()?)
    }

    /// The next word as a name.
    pub fn name(&mut self) -> Result<Name, LineFault>
        ensures { Gives result self.new (name self.old) }
    {
        name_of(self.take()?)
    }

    /// The next word as a data word.
    pub fn data_word(&mut self) -> Result<Phase, LineFault>
        ensures { Gives result self.new (data_word self.old) }
    {
        data_word_of(self.take()?)
    }
}

/// Whether a word is the expected one.
pub fn is_word(word: &[u8], expected: &[u8]) -> bool
    ensures { result ≡ bytes_eq word.now expected.now }
{
    word == expected
}

// How many words a text without a comment has.
fn count_words(text: &[u8]) -> usize
    ensures { result ≡ length (words_in text.now) }
{
    let mut count = 0;
    let mut rest = text;
    while let Some((_word, behind)) = next_word(rest) {
        count += 1;
        rest = behind;
    }
    count
}

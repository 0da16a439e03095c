//! What one word is read as.

ghost use Rattle.std.specs.Prelude.{◌≡◌, ◌==◌, ◌+◌, ◌*◌, ◌<◌, ◌≤◌, ◌^◌, true, false, length};
ghost use Rattle.std.specs.Prelude.{slice_index, IfOk, MatchOption};
ghost use Rattle.std.specs.List.{position_or_len, list_all};
ghost use Rattle.std.specs.Char.{digit_value, is_digit};
ghost use Rattle.board_statements.specs.Words.{hex_of, decimal_of, long_of, lower_of, data_word_of};
ghost use Rattle.board_statements.specs.Words.{digit_of, enables_of, name_of, fixed_of, header_of};
ghost use Rattle.board_statements.specs.Words.{in_pairs, has_mark, before_mark, behind_mark};

use crate::words::is_word;
use board_model::Name;
use board_text::{decimal, hex};
use pci_command::Phase;
use text_faults::LineFault;

/// At most `digits` hexadecimal digits, which are 1 to 8.
#[tactic(auto, unfolding(crate::specs::Words::hex_of))]
pub fn hex_of(word: &[u8], digits: u8) -> Result<u32, LineFault>
    requires at_least_one { 1 ≤ digits }
    requires at_most_eight { digits ≤ 8 }
    ensures value { result ≡ hex_of digits word.now }
    ensures below { IfOk result (λ number. number < 16 ^ digits) }
{
    Ok(hex(word, digits)?)
}

/// A decimal number from `low` to `high`.
#[tactic(auto, unfolding(crate::specs::Words::decimal_of))]
pub fn decimal_of(word: &[u8], low: u32, high: u32) -> Result<u32, LineFault>
    ensures value { result ≡ decimal_of low high word.now }
    ensures bounded { IfOk result (λ number. number ≤ high) }
{
    let number = decimal(word)?;
    if (low..=high).contains(&number) {
        Ok(number)
    } else {
        Err(LineFault::IllFormed)
    }
}

/// The expected word.
#[tactic(auto, unfolding(crate::specs::Words::fixed_of))]
pub fn fixed_of(word: &[u8], expected: &[u8]) -> Result<(), LineFault>
    ensures { result ≡ fixed_of expected.now word.now }
{
    if is_word(word, expected) {
        Ok(())
    } else {
        Err(LineFault::WrongWord)
    }
}

/// A name.
#[tactic(auto, unfolding(crate::specs::Words::name_of))]
pub fn name_of(word: &[u8]) -> Result<Name, LineFault>
    ensures { result ≡ name_of word.now }
{
    Name::new(word).ok_or(LineFault::IllFormed)
}

/// HEX, and in a text of 64-bit addresses also `UPPER:LOWER`.
#[tactic(auto, unfolding(crate::specs::Words::long_of))]
pub fn long_of(word: &[u8], wide: bool) -> Result<u64, LineFault>
    ensures { result ≡ long_of wide word.now }
{
    match parts(word, b':') {
        Some((upper, lower)) if wide => {
            let upper = hex_of(upper, 8)?;
            let lower = lower_of(lower)?;
            Ok(u64::from(upper) * 0x1_0000_0000 + u64::from(lower))
        }
        _ => Ok(u64::from(hex_of(word, 8)?)),
    }
}

fn lower_of(part: &[u8]) -> Result<u32, LineFault>
    ensures { result ≡ lower_of part.now }
{
    let number = hex_of(part, 8)?;
    if part.len() == 8 {
        Ok(number)
    } else {
        Err(LineFault::IllFormed)
    }
}

/// `VALUE`, with all bytes enabled, or `VALUE/E`.
#[tactic(auto, unfolding(crate::specs::Words::data_word_of))]
pub fn data_word_of(word: &[u8]) -> Result<Phase, LineFault>
    ensures { result ≡ data_word_of word.now }
{
    match parts(word, b'/') {
        Some((value, enables)) => {
            let value = hex_of(value, 8)?;
            let enables = enables_of(enables)?;
            Ok(Phase { value, enables })
        }
        None => {
            let value = hex_of(word, 8)?;
            Ok(Phase { value, enables: 15 })
        }
    }
}

fn enables_of(part: &[u8]) -> Result<u8, LineFault>
    ensures { result ≡ enables_of part.now }
{
    match part {
        [byte] => digit_of(*byte),
        _ => Err(LineFault::IllFormed),
    }
}

fn digit_of(byte: u8) -> Result<u8, LineFault>
    ensures value { result ≡ digit_of byte }
    ensures below { IfOk result (λ digit. digit < 16) }
{
    match char::from(byte).to_digit(16) {
        Some(digit) => Ok(digit as u8),
        None => Err(LineFault::IllFormed),
    }
}

/// The parts of a word before and behind the first such mark, if it has one.
pub fn parts(word: &[u8], mark: u8) -> Option<(&[u8], &[u8])>
    ensures { MatchOption result
        (has_mark mark word.now ≡ false) (λ found. (has_mark mark word.now ≡ true) ×
        (found.0.now ≡ before_mark mark word.now) × (found.1.now ≡ behind_mark mark word.now)) }
{
    let at = length_before(word, mark);
    if at == word.len() {
        return None;
    }
    let (before, from_mark) = word.split_at(at);
    let (_mark, behind) = from_mark.split_at(1);
    Some((before, behind))
}

fn length_before(word: &[u8], mark: u8) -> usize
    ensures value { result ≡ position_or_len (λ byte. byte == mark) word.now }
    ensures within { result ≤ length word.now }
{
    word.iter()
        .position(|byte| *byte == mark)
        .unwrap_or(word.len())
}

/// The 64 bytes of a header, each in two hexadecimal digits.
#[tactic(auto, unfolding(crate::specs::Words::header_of))]
pub fn header_of(word: &[u8]) -> Result<[u8; 64], LineFault>
    ensures { result ≡ header_of word.now }
{
    if word.len() == 128 && are_digits(word) {
        Ok(in_pairs(word))
    } else {
        Err(LineFault::IllFormed)
    }
}

fn are_digits(word: &[u8]) -> bool
    ensures { result ≡ list_all (λ byte. is_digit byte 16) word.now }
{
    word.iter().all(|byte| is_digit(*byte))
}

fn is_digit(byte: u8) -> bool
    ensures { result ≡ is_digit byte 16 }
{
    digit_of(byte).is_ok()
}

fn in_pairs(word: &[u8]) -> [u8; 64]
    requires size { length word.now ≡ 128 }
    requires digits { list_all (λ byte. is_digit byte 16) word.now ≡ true }
    ensures { result ≡ in_pairs word.now }
{
    let mut bytes = [0; 64];
    for i in 0..64 {
        bytes[i] = pair_at(word, 2 * i);
    }
    bytes
}

#[tactic(auto, using(crate::proofs::KindLemmas::digit_in))]
fn pair_at(word: &[u8], at: usize) -> u8
    requires inside { at + 1 < length word.now }
    requires digits { list_all (λ byte. is_digit byte 16) word.now ≡ true }
    ensures { result ≡
        16 * digit_value (slice_index word.now at) + digit_value (slice_index word.now (at + 1)) }
{
    16 * value_of_digit(word[at]) + value_of_digit(word[at + 1])
}

fn value_of_digit(digit: u8) -> u8
    requires { is_digit digit 16 ≡ true }
    ensures value { result ≡ digit_value digit }
    ensures below { result < 16 }
{
    char::from(digit).to_digit(16).unwrap() as u8
}

//! Numbers as they are printed, behind a text in bytes.
ghost use Rattle.std.specs.Prelude.{◌≡◌, ◌++◌, ◌<◌, OnOk, false};
ghost use Rattle.std.specs.Fmt.{decimal, digit_glyph};
ghost use Rattle.board_printer.specs.Numbers.{word_text};

use itoa::Buffer;
use std::alloc::AllocError;

/// A number in decimal digits.
#[tactic(auto, using(std::proofs::lemmas::Fmt::decimal_digit))]
pub(crate) fn push_decimal(text: &mut Vec<u8>, number: u32) -> Result<(), AllocError>
    ensures { OnOk result (text.new.items ≡ text.old.items ++ decimal number) }
{
    if number < 10 {
        text.push(b'0' + number as u8)?;
        Ok(())
    } else {
        let mut digits = Buffer::new();
        text.extend_from_slice(digits.format(number).as_bytes())
    }
}

/// A number of 32 bits in eight hexadecimal digits.
pub(crate) fn push_word(text: &mut Vec<u8>, number: u32) -> Result<(), AllocError>
    ensures { OnOk result (text.new.items ≡ text.old.items ++ word_text number) }
{
    text.extend_from_slice(&word_digits(number))
}

#[tactic(auto, unfolding(board_printer::specs::Numbers::word_text))]
fn word_digits(number: u32) -> [u8; 8]
    ensures { result ≡ word_text number }
{
    let seven = number / 16;
    let six = seven / 16;
    let five = six / 16;
    let four = five / 16;
    let three = four / 16;
    let two = three / 16;
    let one = two / 16;
    [
        digit(one % 16),
        digit(two % 16),
        digit(three % 16),
        digit(four % 16),
        digit(five % 16),
        digit(six % 16),
        digit(seven % 16),
        digit(number % 16),
    ]
}

/// A hexadecimal digit.
#[inline(always)]
fn digit(value: u32) -> u8
    requires { value < 16 }
    ensures { result ≡ digit_glyph false value }
{
    if value < 10 {
        b'0' + value as u8
    } else {
        b'a' + (value - 10) as u8
    }
}

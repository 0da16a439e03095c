ghost use Rattle.std.specs.Prelude.{◌≡◌, ◌<◌, ◌≤◌, ◌^◌};
ghost use Rattle.std.specs.List.{list_all};
ghost use Rattle.std.specs.Char.{digit_value, is_digit};
ghost use Rattle.std.specs.Str.Parse.{digits_value};
ghost use Rattle.board_text.specs.Numbers.{is_numeral, hex_answer, decimal_answer};

use text_faults::LineFault;
use thiserror::Error;

/// Why a token is no number of its kind.
#[derive(Clone, Copy, Debug, PartialEq, Eq, Error)]
pub enum NumberFault {
    /// All its bytes are digits of the kind, and there are more of them than the kind has.
    #[error("too many digits")]
    TooWide,
    /// It is empty, or a byte is no digit of the kind.
    #[error("not a number")]
    NotDigits,
    /// It is a decimal of at most 10 digits, and 2^32 or above.
    #[error("number out of range")]
    OutOfRange,
}

impl From<NumberFault> for LineFault {
    ghost use Rattle.std.specs.Prelude.{◌≡◌};
    ghost use Rattle.board_text.specs.Numbers.{number_fault};

    ghost from_gives = { λ number fault. fault ≡ number_fault number };

    fn from(number: NumberFault) -> LineFault {
        match number {
            NumberFault::TooWide => LineFault::TooWide,
            NumberFault::NotDigits | NumberFault::OutOfRange => LineFault::IllFormed,
        }
    }
}

/// The number that a token of 1 to `digits` hexadecimal digits of either case writes. `digits` is
/// from 1 to 8.
pub fn hex(token: &[u8], digits: u8) -> Result<u32, NumberFault>
    requires at_least_one { 1 ≤ digits }
    requires at_most_eight { digits ≤ 8 }
    ensures { result ≡ hex_answer token.now digits }
{
    if !is_numeral(token, 16) {
        return Err(NumberFault::NotDigits);
    }
    if token.len() > digits as usize {
        return Err(NumberFault::TooWide);
    }
    Ok(value_of(token, 16) as u32)
}

/// The number that a token of 1 to 10 decimal digits writes, where it is below 2^32.
pub fn decimal(token: &[u8]) -> Result<u32, NumberFault>
    ensures { result ≡ decimal_answer token.now }
{
    if !is_numeral(token, 10) {
        return Err(NumberFault::NotDigits);
    }
    if token.len() > 10 {
        return Err(NumberFault::TooWide);
    }
    u32::try_from(value_of(token, 10)).map_err(|_above| NumberFault::OutOfRange)
}

fn is_numeral(token: &[u8], radix: u32) -> bool
    ensures { result ≡ is_numeral radix token.now }
{
    !token.is_empty() && are_digits(token, radix)
}

fn are_digits(token: &[u8], radix: u32) -> bool
    ensures { result ≡ list_all (λ byte. is_digit byte radix) token.now }
{
    token.iter().all(|byte| value_of_digit(*byte) < radix)
}

// The number that the digits of a token write.
fn value_of(token: &[u8], radix: u32) -> u64
    requires base { 1 ≤ radix }
    requires small_base { radix ≤ 16 }
    requires fits { digits_value radix token.now < 2 ^ 40 }
    ensures { result ≡ digits_value radix token.now }
{
    let mut value = 0;
    for byte in token {
        value = value * u64::from(radix) + u64::from(value_of_digit(*byte));
    }
    value
}

/// The value of a digit or a letter, and 36 for any other byte.
pub fn value_of_digit(byte: u8) -> u32
    ensures { result ≡ digit_value byte }
{
    match byte {
        b'0'..=b'9' => u32::from(byte - b'0'),
        b'A'..=b'Z' => u32::from(byte - b'A') + 10,
        b'a'..=b'z' => u32::from(byte - b'a') + 10,
        _ => 36,
    }
}

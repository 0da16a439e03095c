//! A number at the front of a text.
ghost use Rattle.std.specs.Prelude.{◌≡◌, ◌<◌, ◌≤◌, ◌^◌, true, false, IfSome, IsNone, MatchOption};
ghost use Rattle.std.specs.Str.Parse.{digits_value};
ghost use Rattle.observe_log.specs.Words.{is_short_numeral};
ghost use Rattle.observe_log.specs.Front.{BeginsNumber};

use board_text::value_of_digit;

/// The number that the digits of this base at the front of a text write, and what stands behind
/// them, read in one pass: of one to `most` digits.
#[inline(always)]
pub(crate) fn leading_number(text: &[u8], radix: u32, most: usize) -> Option<(u64, &[u8])>
    requires base { 0 < radix }
    requires fits { radix ^ most ≤ 2 ^ 64 }
    ensures number { IfSome result
        (λ found. BeginsNumber radix most text.now found.0 found.1.now) }
    ensures none { IsNone result → is_short_numeral radix most text.now ≡ false }
    ensures below { IfSome result (λ found. found.0 < radix ^ most) }
{
    let mut value: u64 = 0;
    let mut count = 0usize;
    for byte in text {
        let digit = value_of_digit(*byte);
        if digit >= radix {
            break;
        }
        if count >= most {
            return None;
        }
        value = value * u64::from(radix) + u64::from(digit);
        count += 1;
    }
    if count == 0 {
        return None;
    }
    let (_digits, behind) = text.split_at(count);
    Some((value, behind))
}

/// The number that a word of 1 to `most` digits of this base writes.
#[inline(always)]
pub(crate) fn number_in(word: &[u8], radix: u32, most: usize) -> Option<u64>
    requires base { 0 < radix }
    requires fits { radix ^ most ≤ 2 ^ 64 }
    ensures number { MatchOption result (is_short_numeral radix most word.now ≡ false)
        (λ number. (is_short_numeral radix most word.now ≡ true) ×
        (number ≡ digits_value radix word.now)) }
    ensures below { IfSome result (λ number. number < radix ^ most) }
{
    let (value, behind) = leading_number(word, radix, most)?;
    if behind.is_empty() { Some(value) } else { None }
}

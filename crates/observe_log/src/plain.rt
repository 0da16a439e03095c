//! The lines of a log and their words. A line without a comment, in which each byte may stand, is
//! found in one pass, and each of its words is cut once.
ghost use Rattle.std.specs.Prelude.{◌≡◌, ◌+◌, ◌≤◌, ◌↔◌, ◌∷◌, true, false, length, drop, Some};
ghost use Rattle.std.specs.Prelude.{IfSome, IsNone, IsTrue, MatchOption, nat_le, ◌&&◌, ◌||◌};
ghost use Rattle.std.specs.List.{position_or_len, list_all};
ghost use Rattle.board_text.specs.Lines.{lines_of};
ghost use Rattle.board_text.specs.Tokens.{words_of};
ghost use Rattle.observe_log.specs.Boards.{is_readable};
ghost use Rattle.observe_log.specs.Plain.{is_plain, is_no_plain, IsPlain};

use crate::line::LineWords;
use crate::parts::is_readable;
use board_text::next_line;

/// How many bytes are looked at together, with no branch between them.
const AT_ONCE: usize = 16;

/// The line that begins at `at`, without its newline, the place behind that, and whether it is
/// known to be readable and without a comment. There is none exactly from the end of the text on.
pub(crate) fn line_at(bytes: &[u8], at: usize) -> Option<(&[u8], usize, bool)>
    ensures end { IsNone result ↔ (length bytes.now ≤ at) }
    ensures line { IfSome result
        (λ found. lines_of (drop at bytes.now) ≡ found.0.now ∷ lines_of (drop found.1 bytes.now)) }
    ensures next { IfSome result (λ found. found.1 ≡ at + length found.0.now + 1) }
    ensures within { IfSome result (λ found. at + length found.0.now ≤ length bytes.now) }
    ensures plain { IfSome result (λ found. IsTrue found.2 → IsPlain found.0.now) }
{
    if at >= bytes.len() {
        return None;
    }
    match plain_line(bytes, at) {
        Some((line, next)) => Some((line, next, true)),
        None => any_line(bytes, at),
    }
}

fn any_line(bytes: &[u8], at: usize) -> Option<(&[u8], usize, bool)>
    ensures end { IsNone result ↔ (length bytes.now ≤ at) }
    ensures line { IfSome result
        (λ found. lines_of (drop at bytes.now) ≡ found.0.now ∷ lines_of (drop found.1 bytes.now)) }
    ensures next { IfSome result (λ found. found.1 ≡ at + length found.0.now + 1) }
    ensures within { IfSome result (λ found. at + length found.0.now ≤ length bytes.now) }
    ensures plain { IfSome result (λ found. found.2 ≡ false) }
{
    let (line, next) = next_line(bytes, at)?;
    Some((line, next, false))
}

/// The line that begins at `at`, where it has a newline, can be read, and has no comment.
fn plain_line(bytes: &[u8], at: usize) -> Option<(&[u8], usize)>
    requires { at ≤ length bytes.now }
    ensures line { IfSome result
        (λ found. lines_of (drop at bytes.now) ≡ found.0.now ∷ lines_of (drop found.1 bytes.now)) }
    ensures next { IfSome result (λ found. found.1 ≡ at + length found.0.now + 1) }
    ensures within { IfSome result (λ found. at + length found.0.now ≤ length bytes.now) }
    ensures plain { IfSome result (λ found. IsPlain found.0.now) }
{
    let (_before, rest) = bytes.split_at(at);
    let size = length_of_plain(rest);
    let (line, from) = rest.split_at(size);
    let (stop, _behind) = from.split_first()?;
    if *stop != b'\n' {
        return None;
    }
    if size > 256 { // not a limit
        return None;
    }
    Some((line, at + size + 1))
}

/// How many bytes stand before the first that a line may not have, or with which a comment begins.
fn length_of_plain(text: &[u8]) -> usize
    ensures value { result ≡ position_or_len is_no_plain text.now }
    ensures within { result ≤ length text.now }
{
    let mut left = text;
    while left.len() >= AT_ONCE {
        let (these, others) = left.split_at(AT_ONCE);
        if !are_plain(these) {
            break;
        }
        left = others;
    }
    text.len() - left.len() + length_of_few(left)
}

/// The same, one by one.
fn length_of_few(text: &[u8]) -> usize
    ensures value { result ≡ position_or_len is_no_plain text.now }
    ensures within { result ≤ length text.now }
{
    text.iter()
        .position(|byte| !is_plain(*byte))
        .unwrap_or(text.len())
}

fn are_plain(bytes: &[u8]) -> bool
    ensures { result ≡ list_all is_plain bytes.now }
{
    let mut all = true;
    for byte in bytes {
        all = both(all, is_plain(*byte));
    }
    all
}

fn is_plain(byte: u8) -> bool
    ensures { result ≡ is_plain byte }
{
    let is_mark = either(byte == b'\t', between(byte, b' ', b'"'));
    either(is_mark, between(byte, b'$', b'~'))
}

fn between(byte: u8, low: u8, high: u8) -> bool
    ensures { result ≡ (nat_le low byte && nat_le byte high) }
{
    both(low <= byte, byte <= high)
}

fn both(a: bool, b: bool) -> bool
    ensures { result ≡ (a && b) }
{
    a & b
}

fn either(a: bool, b: bool) -> bool
    ensures { result ≡ (a || b) }
{
    a | b
}

/// The words of a line that can be read.
pub(crate) fn words_at(line: &[u8], plain: bool) -> Option<LineWords<'_>>
    requires { IsTrue plain → IsPlain line.now }
    ensures readable { MatchOption result (is_readable line.now ≡ false)
        (λ words. (is_readable line.now ≡ true) × (words ≡ words_of line.now)) }
    ensures few { IfSome result (λ words. length words ≤ 257) }
    ensures within { IfSome result (λ words. length words ≤ length line.now + 1) }
{
    if plain {
        Some(LineWords::of_plain(line))
    } else if is_readable(line) {
        Some(LineWords::new(line))
    } else {
        None
    }
}

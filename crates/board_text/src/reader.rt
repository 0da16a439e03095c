ghost use Rattle.std.specs.Prelude.{◌≡◌, ◌+◌, ◌<◌, ◌≤◌, ◌^◌, ◌↔◌, ◌∷◌, length, drop, slice_range};
ghost use Rattle.std.specs.Prelude.{Some, None, IfSome, IsNone, MatchResult};
ghost use Rattle.std.specs.List.{position_or_len, list_all};
ghost use Rattle.board_text.specs.Lines.{is_newline, is_allowed, is_allowed_comment};
ghost use Rattle.board_text.specs.Lines.{is_line_of, lines_of, line_fault};

use crate::words::length_before_comment;
use text_faults::LineFault;

/// The line that begins at `at`, without its newline, and the place behind its newline, at which
/// the next line begins. A last line without a newline has that place as if it had one. There is
/// no line exactly from the end of the text on.
pub fn next_line(bytes: &[u8], at: usize) -> Option<(&[u8], usize)>
    ensures end { IsNone result ↔ (length bytes.now ≤ at) }
    ensures line { IfSome result
        (λ found. lines_of (drop at bytes.now) ≡ found.0.now ∷ lines_of (drop found.1 bytes.now)) }
    ensures place { IfSome result
        (λ found. found.0.now ≡ slice_range bytes.now at (at + length found.0.now)) }
    ensures next { IfSome result (λ found. found.1 ≡ at + length found.0.now + 1) }
    ensures within { IfSome result (λ found. at + length found.0.now ≤ length bytes.now) }
{
    if at >= bytes.len() {
        return None;
    }
    let (_before, rest) = bytes.split_at(at);
    let size = length_of_line(rest);
    let (line, _behind) = rest.split_at(size);
    Some((line, at + size + 1))
}

/// Refuses a line longer than 256 bytes, and else one with a byte other than the tab and 20 to 7e,
/// or in its comment 80 to ff: it is `TooLong`, or has a `BadByte`. The line is given without its
/// newline.
pub fn check_line(line: &[u8]) -> Result<(), LineFault>
    ensures { MatchResult result (λ _. line_fault line.now ≡ None)
        (λ fault. line_fault line.now ≡ Some fault) }
{
    if line.len() > 256 {
        return Err(LineFault::TooLong);
    }
    if has_only_allowed(line) {
        Ok(())
    } else {
        Err(LineFault::BadByte)
    }
}

fn length_of_line(text: &[u8]) -> usize
    ensures value { result ≡ position_or_len is_newline text.now }
    ensures within { result ≤ length text.now }
{
    text.iter()
        .position(|byte| *byte == b'\n')
        .unwrap_or(text.len())
}

#[tactic(auto, using(crate::proofs::AllowedLemmas::allowed_line))]
fn has_only_allowed(line: &[u8]) -> bool
    ensures { result ≡ is_line_of line.now }
{
    // most lines have such bytes alone, so their comment is not looked for
    are_allowed(line) || parts_are_allowed(line)
}

fn are_allowed(line: &[u8]) -> bool
    ensures { result ≡ list_all is_allowed line.now }
{
    line.iter().all(|byte| is_allowed(*byte))
}

fn parts_are_allowed(line: &[u8]) -> bool
    ensures { result ≡ is_line_of line.now }
{
    let (text, comment) = line.split_at(length_before_comment(line));
    are_allowed(text) && are_allowed_in_comment(comment)
}

fn are_allowed_in_comment(comment: &[u8]) -> bool
    ensures { result ≡ list_all is_allowed_comment comment.now }
{
    comment.iter().all(|byte| is_allowed_comment(*byte))
}

/// Whether a byte may stand in a line before its comment.
pub fn is_allowed(byte: u8) -> bool
    ensures { result ≡ is_allowed byte }
{
    byte == b'\t' || (b' '..=b'~').contains(&byte)
}

/// Whether it may stand in a comment.
pub fn is_allowed_comment(byte: u8) -> bool
    ensures { result ≡ is_allowed_comment byte }
{
    is_allowed(byte) || byte >= 0x80
}

ghost use Rattle.std.specs.Prelude.{◌≡◌, false, true, map, is_some, Err, MatchOption};
ghost use Rattle.std.specs.Option.{option_map};
ghost use Rattle.board_model.specs.declared.board.Board.{Board};
ghost use Rattle.trace_reader.specs.lines.Lines.{pieces_of, first_word, second_word, begins_end};
ghost use Rattle.trace_reader.specs.lines.Lines.{is_regular, has_shape, kind_by, pieces_line};

use crate::lines::kind::kind_of;
use arrayvec::ArrayVec;
use board_statements::parts;
use text_faults::TraceLineFault;

/// The words of a line, where single spaces alone stand between them, and there are no more than
/// the longest line of an event has.
pub(crate) fn words_of(line: &[u8]) -> Option<ArrayVec<&[u8], 6>>
    ensures { MatchOption result (has_shape (pieces_of line.now) ≡ false)
        (λ words. (map (λ word. word.now) words.items ≡ pieces_of line.now) ×
        (is_regular (pieces_of line.now) ≡ true)) }
{
    let mut words = ArrayVec::new();
    let mut rest = line;
    while !words.is_full() {
        match parts(rest, b' ') {
            Some((word, behind)) => {
                if word.is_empty() {
                    return None;
                }
                words.push(word);
                rest = behind;
            }
            None => {
                if rest.is_empty() {
                    return None;
                }
                words.push(rest);
                return Some(words);
            }
        }
    }
    None
}

/// The fault of a line whose words are too many or stand otherwise: its second word may be no kind
/// of event.
pub(crate) fn fault_of_shape(line: &[u8]) -> TraceLineFault
    requires { has_shape (pieces_of line.now) ≡ false }
    ensures { (board : Board) → pieces_line board (pieces_of line.now) ≡ Err result }
{
    if begins_end(line) {
        return TraceLineFault::Misshapen;
    }
    if has_kind(line) {
        return TraceLineFault::Misshapen;
    }
    TraceLineFault::NoKind
}

fn begins_end(line: &[u8]) -> bool
    ensures { result ≡ begins_end (pieces_of line.now) }
{
    match parts(line, b' ') {
        Some((word, _behind)) => word == b"end".as_slice(),
        None => false,
    }
}

/// Whether the second word, however many spaces stand before it, is a kind of event.
fn has_kind(line: &[u8]) -> bool
    ensures { result ≡ is_some (kind_by (second_word (pieces_of line.now))) }
{
    match second_word(line) {
        Some(word) => kind_of(word).is_some(),
        None => false,
    }
}

fn second_word(line: &[u8]) -> Option<&[u8]>
    ensures { option_map (λ word. word.now) result ≡ second_word (pieces_of line.now) }
{
    let (piece, behind) = parts(line, b' ')?;
    if piece.is_empty() {
        second_word(behind)
    } else {
        first_word(behind)
    }
}

fn first_word(line: &[u8]) -> Option<&[u8]>
    ensures { option_map (λ word. word.now) result ≡ first_word (pieces_of line.now) }
{
    match parts(line, b' ') {
        Some((piece, behind)) => {
            if piece.is_empty() {
                first_word(behind)
            } else {
                Some(piece)
            }
        }
        None => { if line.is_empty() { None } else { Some(line) } }
    }
}

//! Comments that are put behind the first line of the board of a trace text, which is read as
//! before.
ghost use Rattle.std.specs.Prelude.{◌≡◌, ◌++◌, List, Ok, IfOk, IfSome, IsTrue};
ghost use Rattle.board_model.specs.declared.board.Board.{Board};
ghost use Rattle.history_model.specs.declared.event.Event.{Event};
ghost use Rattle.trace_reader.specs.Traces.{trace_read};
ghost use Rattle.trace_roundtrip.specs.Comments.{begins_comment, IsCommentLine, AreComments};
ghost use Rattle.trace_roundtrip.specs.Comments.{IsBehindTwo};

use board_text::{check_line, next_line};
use std::alloc::{AllocError, Global};

/// Whether a text is lines of comments, each with its newline.
#[tactic(auto, using(crate::proofs::CommentLemmas::comments_none, crate::proofs::CommentLemmas::comments_all))]
pub fn are_comments(text: &[u8]) -> bool
    ensures { IsTrue result → AreComments text.now }
{
    let mut at = 0;
    while let Some((line, next)) = next_line(text, at) {
        if text.len() < next {
            return false;
        }
        if !is_comment_line(line) {
            return false;
        }
        at = next;
    }
    true
}

fn is_comment_line(line: &[u8]) -> bool
    ensures { IsTrue result → IsCommentLine line.now }
{
    begins_comment(line) && check_line(line).is_ok()
}

fn begins_comment(line: &[u8]) -> bool
    ensures { result ≡ begins_comment line.now }
{
    match line {
        [] => false,
        [first, _rest @ ..] => *first == b'#',
    }
}

/// The trace text with these comments behind the first line of its board.
pub fn with_comments(alloc: Global, text: &[u8], said: &[u8]) -> Result<Vec<u8>, AllocError>
    requires { AreComments said.now }
    ensures { (board : Board) (events : List Event) → trace_read text.now ≡ Ok (board, events) →
        IfOk result (λ whole. trace_read whole.items ≡ Ok (board, events)) }
{
    match behind_two_lines(text) {
        Some(place) => {
            let (front, rest) = text.split_at(place);
            let whole = joined(alloc, front, said, rest)?;
            Ok(whole)
        }
        None => {
            let whole = Vec::from_slice(alloc, text)?;
            Ok(whole)
        }
    }
}

/// The place behind the first two lines of a text, and their newlines.
fn behind_two_lines(text: &[u8]) -> Option<usize>
    ensures { IfSome result (IsBehindTwo text.now) }
{
    let Some((_first, next)) = next_line(text, 0) else {
        return None;
    };
    let Some((_second, place)) = next_line(text, next) else {
        return None;
    };
    if text.len() < place {
        return None;
    }
    Some(place)
}

fn joined(alloc: Global, front: &[u8], said: &[u8], rest: &[u8]) -> Result<Vec<u8>, AllocError>
    ensures { IfOk result (λ whole. whole.items ≡ front.now ++ (said.now ++ rest.now)) }
{
    let size = front.len().saturating_add(said.len());
    let mut whole = Vec::with_capacity(alloc, size.saturating_add(rest.len()))?;
    whole.extend_from_slice(front)?;
    whole.extend_from_slice(said)?;
    whole.extend_from_slice(rest)?;
    Ok(whole)
}

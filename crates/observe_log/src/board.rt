ghost use Rattle.std.specs.Prelude.{◌≡◌, ◌+◌, ◌<◌, ◌≤◌, ◌^◌, length, IfOk, IfSome, IsTrue, Err};
ghost use Rattle.board_model.specs.WellFormed.{is_well_formed};
ghost use Rattle.board_text.specs.Lines.{lines_of};
ghost use Rattle.board_text.specs.Tokens.{words_of};
ghost use Rattle.text_faults.specs.declared.or_no_memory.OrNoMemory.TheVariants.{Fault};
ghost use Rattle.observe_log.specs.Boards.{is_operation, is_left_out, begins_left_out, is_refused};
ghost use Rattle.observe_log.specs.Boards.{first_refused, is_no_board, stands_before};
ghost use Rattle.observe_log.specs.Boards.{unless_refused, board_in};
ghost use Rattle.observe_log.specs.Parts.{TellsBoard};

use crate::LogFault;
use crate::parts::is_readable;
use board_model::Board;
use board_parser::{ParseFault, parse, read_is_well_formed};
use board_statements::{Words, is_word};
use board_text::next_line;
use std::alloc::Global;
use text_faults::{LineFault, OrNoMemory};

/// The board of this part of a text, in which it begins at the second line.
pub(crate) fn read_board(alloc: Global, part: &[u8]) -> Result<Board, OrNoMemory<LogFault>>
    requires { length part.now < 2 ^ 31 }
    ensures read { TellsBoard result (board_in (lines_of part.now)) }
    ensures formed { IfOk result (λ board. IsTrue (is_well_formed board)) }
{
    read_is_well_formed();
    let refused = first_refused(part);
    match (parse(alloc, part), refused) {
        (Ok(board), None) => Ok(board),
        (Ok(_board), Some(at)) => Err(OrNoMemory::Fault(left_out(at))),
        (Err(ParseFault::Fault(at)), refused) => Err(OrNoMemory::Fault(first_fault(
            at.line, at.fault, refused,
        ))),
        (Err(ParseFault::NoMemory), _) => Err(OrNoMemory::NoMemory),
    }
}

/// The first of a fault of the board text, and of a line that no log has.
fn first_fault(line: u32, fault: LineFault, refused: Option<u32>) -> LogFault
    requires small { line + 1 < 2 ^ 32 }
    requires within { IfSome refused (λ at. at + 1 < 2 ^ 32) }
    ensures { TellsBoard (Err (Fault result)) (unless_refused refused (Err (line, fault))) }
{
    match refused {
        Some(at) if !stands_before(line, fault, at) => left_out(at),
        _ => LogFault::Board {
            line: line + 1,
            fault,
        },
    }
}

fn stands_before(line: u32, fault: LineFault, at: u32) -> bool
    ensures { result ≡ stands_before (line, fault) at }
{
    line < at || line == at && is_no_board(fault)
}

/// A line of the board part that no log has.
fn left_out(line: u32) -> LogFault
    requires { line + 1 < 2 ^ 32 }
    ensures { result ≡ LogFault.Board (line + 1) LineFault.WrongWord }
{
    LogFault::Board {
        line: line + 1,
        fault: LineFault::WrongWord,
    }
}

fn is_no_board(fault: LineFault) -> bool
    ensures { result ≡ is_no_board fault }
{
    matches!(fault, LineFault::NoFirstLine)
}

/// The number, from 1, of the first line that no log has.
fn first_refused(part: &[u8]) -> Option<u32>
    requires { length part.now < 2 ^ 31 }
    ensures value { result ≡ first_refused 1 (lines_of part.now) }
    ensures within { IfSome result (λ number. number ≤ length part.now + 1) }
{
    let mut number = 1;
    let mut at = 0;
    while let Some((line, next)) = next_line(part, at) {
        if is_refused(line) {
            return Some(number);
        }
        number += 1;
        at = next;
    }
    None
}

fn is_refused(line: &[u8]) -> bool
    ensures { result ≡ is_refused line.now }
{
    is_readable(line) && begins_left_out(line)
}

fn begins_left_out(line: &[u8]) -> bool
    ensures { result ≡ begins_left_out (words_of line.now) }
{
    let mut words = Words::new(line);
    match words.take() {
        Ok(word) => is_left_out(word),
        Err(_missing) => false,
    }
}

/// Whether a line that begins so is an operation, tells how a target stalls or disconnects, or what
/// is thrown away.
fn is_left_out(word: &[u8]) -> bool
    ensures { result ≡ is_left_out word.now }
{
    is_operation(word)
        || is_word(word, b"stall")
        || is_word(word, b"burst")
        || is_word(word, b"discard")
        || is_word(word, b"drop")
}

fn is_operation(word: &[u8]) -> bool
    ensures { result ≡ is_operation word.now }
{
    is_word(word, b"mr")
        || is_word(word, b"mrl")
        || is_word(word, b"mrm")
        || is_word(word, b"ior")
        || is_word(word, b"mw")
        || is_word(word, b"mwi")
        || is_word(word, b"iow")
        || is_word(word, b"cfr")
        || is_word(word, b"cfw")
        || is_word(word, b"poll")
        || is_word(word, b"iopoll")
        || is_word(word, b"pollnot")
        || is_word(word, b"iopollnot")
}

ghost use Rattle.std.specs.Prelude.{◌≡◌, ◌+◌, ◌<◌, ◌≤◌, ◌^◌, length, drop, Some, None, Err, IfOk};
ghost use Rattle.std.specs.Prelude.{IfErr, IsTrue};
ghost use Rattle.board_text.specs.Tokens.{words_of};
ghost use Rattle.board_text.specs.Lines.{lines_of};
ghost use Rattle.observe_log.specs.Boards.{is_readable};
ghost use Rattle.observe_log.specs.Logs.{of_line, is_word_alone, are_first_words, is_first_line};
ghost use Rattle.observe_log.specs.Logs.{is_log_line, log_read};
ghost use Rattle.observe_log.specs.Parts.{StartsBehind, Finds, IsWithout};

use crate::LogFault;
use board_statements::{Words, is_word};
use board_text::{check_line, next_line};
use text_faults::LogLineFault;

/// Where the line `log` stands.
#[derive(Clone, Copy, PartialEq, Eq)]
pub(crate) struct LogLine {
    /// Its first byte.
    pub(crate) start: usize,
    /// The first byte behind its newline, and the number of the line that begins there.
    pub(crate) behind: usize,
    pub(crate) number: u32,
}

/// A fault of a whole line.
pub(crate) fn of_line(line: u32, fault: LogLineFault) -> LogFault
    ensures { result ≡ of_line line fault }
{
    LogFault::Log {
        line,
        word: 0,
        fault,
    }
}

/// The place behind the first line, which is `pcilog 1`.
pub(crate) fn behind_first_line(bytes: &[u8]) -> Result<usize, LogFault>
    ensures found { IfOk result (StartsBehind bytes.now) }
    ensures fault { IfErr result (λ fault. log_read bytes.now ≡ Err fault) }
{
    match next_line(bytes, 0) {
        Some((line, next)) if is_first_line(line) => Ok(next),
        _ => Err(of_line(1, LogLineFault::NoFirstLine)),
    }
}

/// The first line `log` from a place on at which the second line begins.
pub(crate) fn find_log(bytes: &[u8], from: usize) -> Result<LogLine, LogFault>
    requires short { length bytes.now < 2 ^ 31 }
    requires within { from ≤ length bytes.now + 1 }
    ensures found { IfOk result (Finds bytes.now from) }
    ensures fault { IfErr result (IsWithout bytes.now from) }
{
    let mut number = 2;
    let mut at = from;
    while let Some((line, next)) = next_line(bytes, at) {
        if is_log_line(line) {
            return Ok(LogLine {
                start: at,
                behind: next,
                number: number + 1,
            });
        }
        number += 1;
        at = next;
    }
    Err(of_line(number, LogLineFault::NoLogLine))
}

/// Whether a line has no byte or length that no line may have.
pub(crate) fn is_readable(line: &[u8]) -> bool
    ensures readable { result ≡ is_readable line.now }
    ensures short { IsTrue result → length line.now ≤ 256 }
{
    check_line(line).is_ok()
}

/// Whether this word stands alone on the line.
pub(crate) fn is_word_alone(line: &[u8], expected: &[u8]) -> bool
    ensures { result ≡ is_word_alone expected.now (words_of line.now) }
{
    let mut words = Words::new(line);
    match words.take() {
        Ok(word) => is_word(word, expected) && words.is_done(),
        Err(_missing) => false,
    }
}

fn is_first_line(line: &[u8]) -> bool
    ensures { result ≡ is_first_line line.now }
{
    is_readable(line) && are_first_words(line)
}

fn are_first_words(line: &[u8]) -> bool
    ensures { result ≡ are_first_words (words_of line.now) }
{
    let mut words = Words::new(line);
    let Ok(word) = words.take() else {
        return false;
    };
    let Ok(version) = words.take() else {
        return false;
    };
    words.is_done() && is_word(word, b"pcilog") && is_word(version, b"1")
}

fn is_log_line(line: &[u8]) -> bool
    ensures { result ≡ is_log_line line.now }
{
    is_readable(line) && is_word_alone(line, b"log")
}

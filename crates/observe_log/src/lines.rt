ghost use Rattle.std.specs.Prelude.{◌≡◌, ◌+◌, ◌<◌, ◌≤◌, ◌^◌, ◌&&◌, not, codes, length, drop};
ghost use Rattle.std.specs.Prelude.{OnOk};
ghost use Rattle.std.specs.List.{list_any};
ghost use Rattle.board_text.specs.Lines.{lines_of};
ghost use Rattle.observe_log.specs.Logs.{has_words, is_word_alone, behind_end, words_line};
ghost use Rattle.observe_log.specs.Logs.{lines_read};
ghost use Rattle.observe_log.specs.Lines.{Read};
ghost use Rattle.observe_log.specs.Reading.{AddsAll};

use crate::LogFault;
use crate::fault::LineStop;
use crate::line::{Initiators, LineWords};
use crate::parts::{is_readable, of_line};
use crate::plain::{line_at, words_at};
use crate::reading::Reading;
use board_model::Board;
use board_statements::has_words;
use board_text::next_line;
use text_faults::{LogLineFault, OrNoMemory};

/// Reads the lines from `from` on, where the first line has this number, up to the `end` line.
pub(crate) fn read_lines<'a>(
    board: &'a Board,
    bytes: &'a [u8],
    from: usize,
    first: u32,
    reading: &mut Reading,
) -> Result<(), OrNoMemory<LogFault>>
    requires short { length bytes.now < 2 ^ 31 }
    requires within { from ≤ length bytes.now + 1 }
    requires small { first ≤ from + 1 }
    requires few { length reading.old.phases ≤ from }
    ensures { AddsAll result reading.new
        (lines_read board.now first reading.old (lines_of (drop from bytes.now))) }
{
    let mut initiators = Initiators::new(board);
    let mut number = first;
    let mut at = from;
    while let Some((line, next, plain)) = line_at(bytes, at) {
        let Some(mut words) = words_at(line, plain) else {
            return Err(OrNoMemory::Fault(of_line(number, LogLineFault::Misread)));
        };
        if is_last(&words, bytes, next) {
            return behind_end(bytes, next, number + 1);
        }
        match read_line(&mut initiators, &mut words, number, reading) {
            Ok(()) => {}
            Err(fault) => return Err(fault),
        }
        number += 1;
        at = next;
    }
    Err(OrNoMemory::Fault(of_line(number, LogLineFault::NoEndLine)))
}

/// Reads a line that is not the last one with words, by its words.
fn read_line<'a>(
    initiators: &mut Initiators<'a>,
    words: &mut LineWords<'a>,
    number: u32,
    reading: &mut Reading,
) -> Result<(), OrNoMemory<LogFault>>
    requires few { length words.old ≤ 257 }
    requires fits { length reading.old.phases < 2 ^ 32 }
    ensures read { AddsAll result reading.new
        (words_line initiators.old number reading.old words.old) }
    ensures board { initiators.new ≡ initiators.old }
    ensures few { OnOk result
        (length reading.new.phases ≤ length reading.old.phases + length words.old) }
{
    if words.is_done() {
        return Ok(());
    }
    match reading.read(initiators, number, words) {
        Ok(()) => Ok(()),
        Err(LineStop::Fault(at)) => Err(OrNoMemory::Fault(LogFault::Log {
            line: number,
            word: at.word,
            fault: at.fault,
        })),
        Err(LineStop::NoMemory) => Err(OrNoMemory::NoMemory),
    }
}

/// Whether a line is `end`, and the lines from `next` on have no words.
fn is_last(words: &LineWords, bytes: &[u8], next: usize) -> bool
    ensures { result ≡ (is_word_alone (codes "end") words.now
        && not (list_any has_words (lines_of (drop next bytes.now)))) }
{
    words.is_end() && !have_words(bytes, next)
}

fn have_words(bytes: &[u8], from: usize) -> bool
    ensures { result ≡ list_any has_words (lines_of (drop from bytes.now)) }
{
    let mut at = from;
    while let Some((line, next)) = next_line(bytes, at) {
        if has_words(line) {
            return true;
        }
        at = next;
    }
    false
}

/// Looks whether the lines from `from` on, where the first has this number, can be read.
fn behind_end(bytes: &[u8], from: usize, first: u32) -> Result<(), OrNoMemory<LogFault>>
    requires short { length bytes.now < 2 ^ 31 }
    requires within { from ≤ length bytes.now + 1 }
    requires small { first ≤ from + 1 }
    ensures { (read : Read) →
        AddsAll result read (behind_end first read (lines_of (drop from bytes.now))) }
{
    let mut number = first;
    let mut at = from;
    while let Some((line, next)) = next_line(bytes, at) {
        if !is_readable(line) {
            return Err(OrNoMemory::Fault(of_line(number, LogLineFault::Misread)));
        }
        number += 1;
        at = next;
    }
    Ok(())
}

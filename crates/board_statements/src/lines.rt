ghost use Rattle.std.specs.Prelude.{◌≡◌, nat_lt, length};
ghost use Rattle.board_text.specs.Tokens.{words_of};
ghost use Rattle.board_statements.specs.Words.{Gives};
ghost use Rattle.board_statements.specs.Statements.{behind_word, statement_of, first_line_of};

use crate::keyword::{LineForm, line_form};
use crate::words::{Words, is_word};
use crate::{Statement, bridges, masters, targets};
use text_faults::LineFault;

/// Whether a line has words. A line is given without its newline.
pub fn has_words(line: &[u8]) -> bool
    ensures { result ≡ nat_lt 0 (length (words_of line.now)) }
{
    !Words::new(line).is_done()
}

/// Whether a line is `pciboard 1` (false) or `pciboard 2` (true), by its words.
#[tactic(auto, unfolding(crate::specs::Statements::first_line_of))]
pub fn first_line(line: &[u8]) -> Option<bool>
    ensures { result ≡ first_line_of (words_of line.now) }
{
    let mut words = Words::new(line);
    let word = words.take().ok()?;
    let version = words.take().ok()?;
    if !words.is_done() || !is_word(word, b"pciboard") {
        return None;
    }
    if is_word(version, b"1") {
        Some(false)
    } else if is_word(version, b"2") {
        Some(true)
    } else {
        None
    }
}

/// What a line behind the first one says, by its words, or its first fault: the words are looked at
/// from left to right, and a word too many is found last. `wide` says that the text is a
/// `pciboard 2` text, in which some numbers may have 64 bits. The line has words; of a line without
/// words the first one is missing.
pub fn statement_of(wide: bool, line: &[u8]) -> Result<Statement, LineFault>
    ensures { result ≡ statement_of wide (words_of line.now) }
{
    let mut words = Words::new(line);
    take_statement(&mut words, wide)
}

/// Takes the words of a line as `statement_of` reads them. Where they have a fault, the last word
/// that was taken is the one at which it was met.
#[tactic(auto, unfolding(crate::specs::Statements::statement_of, crate::specs::Statements::statement_form))]
pub fn take_statement(words: &mut Words, wide: bool) -> Result<Statement, LineFault>
    ensures { result ≡ statement_of wide words.old }
{
    let form = line_form(words.take()?)?;
    let statement = behind_word(words, wide, form)?;
    if words.is_done() {
        Ok(statement)
    } else {
        let _too_many = words.take();
        Err(LineFault::TooMany)
    }
}

#[tactic(auto, unfolding(crate::specs::Statements::behind_word))]
fn behind_word(words: &mut Words, wide: bool, form: LineForm) -> Result<Statement, LineFault>
    ensures { Gives result words.new (behind_word wide form words.old) }
{
    match form {
        LineForm::Bridge => bridges::bridge(words, wide),
        LineForm::Header => bridges::header(words),
        LineForm::Target => targets::target(words),
        LineForm::Id => targets::identifies(words),
        LineForm::Stall => targets::stalls(words),
        LineForm::Burst => targets::bursts(words),
        LineForm::Range => targets::claims(words, wide),
        LineForm::Abort => targets::aborts(words, wide),
        LineForm::Word => targets::opens(words, wide),
        LineForm::Master => masters::master(words),
        LineForm::Reads(command) => masters::read(words, wide, command),
        LineForm::WritesBurst(command) => masters::burst_write(words, wide, command),
        LineForm::WritesPort => masters::port_write(words),
        LineForm::ReadsRegister => masters::register_read(words),
        LineForm::WritesRegister => masters::register_write(words),
        LineForm::Polls { space, differs } => masters::poll(words, wide, space, differs),
        LineForm::Discard => masters::discards(words),
        LineForm::Drop => masters::drops(words),
    }
}

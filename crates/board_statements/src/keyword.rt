ghost use Rattle.std.specs.Prelude.{◌≡◌};
ghost use Rattle.board_statements.specs.Keywords.{line_form, traffic_form_of};

use crate::words::is_word;
use pci_command::{Command, Space};
use text_faults::LineFault;

/// The kinds of lines behind the first one.
#[derive(Clone, Copy)]
pub enum LineForm {
    Bridge,
    Header,
    Target,
    Id,
    Stall,
    Burst,
    Range,
    Abort,
    Word,
    Master,
    /// A read of one dword.
    Reads(Command),
    /// A write of one data word or more in memory.
    WritesBurst(Command),
    /// A write of one data word in I/O space.
    WritesPort,
    ReadsRegister,
    WritesRegister,
    /// A poll for a value, or for any that differs.
    Polls { space: Space, differs: bool },
    Discard,
    Drop,
}

/// The kind of a line that begins with this word.
#[tactic(auto, unfolding(crate::specs::Keywords::line_form))]
pub fn line_form(word: &[u8]) -> Result<LineForm, LineFault>
    ensures { result ≡ line_form word.now }
{
    if is_word(word, b"bridge") {
        Ok(LineForm::Bridge)
    } else if is_word(word, b"header") {
        Ok(LineForm::Header)
    } else if is_word(word, b"target") {
        Ok(LineForm::Target)
    } else if is_word(word, b"id") {
        Ok(LineForm::Id)
    } else if is_word(word, b"stall") {
        Ok(LineForm::Stall)
    } else if is_word(word, b"burst") {
        Ok(LineForm::Burst)
    } else if is_word(word, b"range") {
        Ok(LineForm::Range)
    } else if is_word(word, b"abort") {
        Ok(LineForm::Abort)
    } else if is_word(word, b"word") {
        Ok(LineForm::Word)
    } else if is_word(word, b"master") {
        Ok(LineForm::Master)
    } else {
        traffic_form_of(word)
    }
}

/// Of a master's program, or of what is discarded or dropped.
fn traffic_form_of(word: &[u8]) -> Result<LineForm, LineFault>
    ensures { result ≡ traffic_form_of word.now }
{
    if is_word(word, b"mr") {
        Ok(LineForm::Reads(Command::MemRead))
    } else if is_word(word, b"mrl") {
        Ok(LineForm::Reads(Command::MemReadLine))
    } else if is_word(word, b"mrm") {
        Ok(LineForm::Reads(Command::MemReadMultiple))
    } else if is_word(word, b"ior") {
        Ok(LineForm::Reads(Command::IoRead))
    } else if is_word(word, b"mw") {
        Ok(LineForm::WritesBurst(Command::MemWrite))
    } else if is_word(word, b"mwi") {
        Ok(LineForm::WritesBurst(Command::MemWriteInvalidate))
    } else if is_word(word, b"iow") {
        Ok(LineForm::WritesPort)
    } else if is_word(word, b"cfr") {
        Ok(LineForm::ReadsRegister)
    } else if is_word(word, b"cfw") {
        Ok(LineForm::WritesRegister)
    } else if is_word(word, b"poll") {
        Ok(polls(Space::Mem, false))
    } else if is_word(word, b"iopoll") {
        Ok(polls(Space::Io, false))
    } else if is_word(word, b"pollnot") {
        Ok(polls(Space::Mem, true))
    } else if is_word(word, b"iopollnot") {
        Ok(polls(Space::Io, true))
    } else if is_word(word, b"discard") {
        Ok(LineForm::Discard)
    } else if is_word(word, b"drop") {
        Ok(LineForm::Drop)
    } else {
        Err(LineFault::WrongWord)
    }
}

fn polls(space: Space, differs: bool) -> LineForm
    ensures { result ≡ LineForm.Polls space differs }
{
    LineForm::Polls { space, differs }
}

ghost use Rattle.std.specs.Prelude.{◌≡◌, ◌+◌, ◌≤◌, [], length, OnOk};
ghost use Rattle.observe_log.specs.Lines.{abort_of, ending_of, data_read, data_fault, is_single};
ghost use Rattle.observe_log.specs.Lines.{is_single_write, needs_data, most_offered, past_offered};
ghost use Rattle.observe_log.specs.Lines.{past_space, room_from};
ghost use Rattle.board_statements.specs.Words.{data_word_of};
ghost use Rattle.observe_log.specs.Data.{TellsData};
ghost use Rattle.observe_log.specs.Plain.{StandsAlone, Reads};
ghost use Rattle.observe_log.specs.Front.{IsDataWord, TakesData};

use crate::fault::{AtWord, LineStop, misread};
use crate::line::LineWords;
use board_statements::{Words, is_word};
use observe_told::{Addressed, Ending};
use pci_command::{Command, Phase, Space};
use text_faults::LogLineFault;

/// What a word behind the address is.
#[derive(Clone, Copy)]
enum DataWord {
    Data(Phase),
    Ends(Ending),
    Other,
}

/// `WORD.. RESULT`, up to the end of the line: how many data words stand there, and how the
/// transaction ended. The data words are put behind the phases.
pub(crate) fn read_data(
    words: &mut LineWords,
    phases: &mut Vec<Phase>,
) -> Result<(u8, Ending), LineStop>
    requires { length words.old ≤ 256 }
    ensures told { TellsData result phases.old.items phases.new.items (data_read 5 [] words.old) }
    ensures few { OnOk result
        (length phases.new.items ≤ length phases.old.items + length words.old) }
{
    let mut count = 0;
    while let Some(word) = take_data(words) {
        match word {
            DataWord::Data(phase) => phases.push(phase)?,
            DataWord::Ends(ending) if words.is_done() => return Ok((count as u8, ending)),
            DataWord::Ends(_) => return Err(LineStop::Fault(misread(count + 6))),
            DataWord::Other => return Err(LineStop::Fault(misread(count + 5))),
        }
        count += 1;
    }
    Err(LineStop::Fault(misread(count + 5)))
}

/// Takes the next word behind the address: mostly HEX, with all bytes enabled.
fn take_data(words: &mut LineWords) -> Option<DataWord>
    ensures { TakesData result words.old words.new }
{
    if let Some(value) = words.take_number(16, 8) { // not a limit
        return Some(DataWord::Data(Phase {
            value: value as u32,
            enables: 15,
        }));
    }
    let word = words.take()?;
    Some(data_word_in(word))
}

fn data_word_in(word: &[u8]) -> DataWord
    requires { StandsAlone word.now }
    ensures { IsDataWord result word.now }
{
    if let Some(ending) = ending_of(word) {
        return DataWord::Ends(ending);
    }
    match phase_of(word) {
        Some(phase) => DataWord::Data(phase),
        None => DataWord::Other,
    }
}

/// RESULT.
fn ending_of(word: &[u8]) -> Option<Ending>
    ensures { result ≡ ending_of word.now }
{
    match word {
        b"done" => Some(Ending::Done),
        b"retry" => Some(Ending::Retry),
        _ => abort_of(word),
    }
}

fn abort_of(word: &[u8]) -> Option<Ending>
    ensures { result ≡ abort_of word.now }
{
    if is_word(word, b"tabort") {
        Some(Ending::TargetAbort)
    } else if is_word(word, b"nobody") {
        Some(Ending::Nobody)
    } else {
        None
    }
}

/// A data word as in boards.
fn phase_of(word: &[u8]) -> Option<Phase>
    requires { StandsAlone word.now }
    ensures { Reads result (data_word_of word.now) }
{
    let mut words = Words::new(word);
    match words.data_word() {
        Ok(phase) => Some(phase),
        Err(_fault) => None,
    }
}

/// What is wrong with so many data words.
pub(crate) fn data_fault(
    command: Command,
    address: Addressed,
    count: usize,
    ending: Ending,
) -> Option<AtWord>
    ensures { result ≡ data_fault command address count ending }
{
    if needs_data(command, ending) && count == 0 {
        return Some(no_such_data(5));
    }
    if is_single(command) && 1 < count {
        return Some(no_such_data(6));
    }
    match past_offered(count, most_offered(command, ending)) {
        Some(fault) => Some(fault),
        None => past_space(address, count),
    }
}

fn no_such_data(word: usize) -> AtWord
    ensures { result ≡ record { word = word; fault = LogLineFault.NoSuchData } }
{
    AtWord {
        word,
        fault: LogLineFault::NoSuchData,
    }
}

/// One dword a transaction: in I/O and configuration space.
fn is_single(command: Command) -> bool
    ensures { result ≡ is_single command }
{
    match command.space() {
        Space::Mem => false,
        Space::Io | Space::Cfg => true,
    }
}

fn is_single_write(command: Command) -> bool
    ensures { result ≡ is_single_write command }
{
    is_single(command) && !command.is_read()
}

fn needs_data(command: Command, ending: Ending) -> bool
    ensures { result ≡ needs_data command ending }
{
    match ending {
        Ending::Done => true,
        Ending::Retry | Ending::TargetAbort | Ending::Nobody => is_single_write(command),
    }
}

fn most_offered(command: Command, ending: Ending) -> Option<u8>
    ensures { result ≡ most_offered command ending }
{
    match ending {
        Ending::Done | Ending::TargetAbort => None,
        Ending::Retry => { if command.is_read() { Some(0) } else { Some(1) } }
        Ending::Nobody => {
            if is_single_write(command) {
                Some(1)
            } else {
                Some(0)
            }
        }
    }
}

fn past_offered(count: usize, most: Option<u8>) -> Option<AtWord>
    ensures { result ≡ past_offered count most }
{
    match most {
        Some(most) if usize::from(most) < count => Some(misread(5 + usize::from(most))),
        _ => None,
    }
}

fn past_space(address: Addressed, count: usize) -> Option<AtWord>
    ensures { result ≡ past_space address count }
{
    match address {
        Addressed::Byte(address) => {
            let room = ((u64::MAX - address) / 4 + 1) as usize;
            if room < count {
                Some(no_such_data(5 + room))
            } else {
                None
            }
        }
        Addressed::Type0 { .. } | Addressed::Type1 { .. } => None,
    }
}

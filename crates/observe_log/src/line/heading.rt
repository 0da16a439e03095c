ghost use Rattle.std.specs.Prelude.{◌≡◌, ℕ, List, true, [], ◌∷◌, Ok, MatchResult};
ghost use Rattle.board_statements.specs.Words.{hex, hex_of, decimal_of, long, long_of};
ghost use Rattle.observe_log.specs.Plain.{StandsAlone, Reads};
ghost use Rattle.observe_log.specs.Readers.{Gives, misread, one_word, as_in_boards};
ghost use Rattle.observe_log.specs.Words.{of_kind, times_of, bus_by, bus_form, who_in, command_of};
ghost use Rattle.observe_log.specs.Words.{register_of, dword_by, address_in, heading_form};

use crate::fault::{AtWord, misread};
use crate::line::words::{command_of, register_of, times_of};
use crate::line::{Initiators, LineWords};
use board_model::{Board, is_bus};
use board_statements::Words;
use board_text::{decimal, hex};
use observe_told::{Addressed, Who};
use pci_command::{Command, Space};
use text_faults::LogLineFault;

/// What the first five words of a line say.
#[derive(Clone, Copy)]
pub(crate) struct Heading {
    pub(crate) start: u64,
    pub(crate) end: u64,
    pub(crate) bus: u8,
    pub(crate) who: Who,
    pub(crate) command: Command,
    pub(crate) address: Addressed,
}

/// `START-END BUS WHO COMMAND ADDRESS`
#[tactic(auto, unfolding(crate::specs::Words::heading_form))]
pub(crate) fn read_heading<'a>(
    initiators: &mut Initiators<'a>,
    words: &mut LineWords<'a>,
) -> Result<Heading, AtWord>
    ensures read { Gives result words.new (heading_form initiators.old words.old) }
    ensures board { initiators.new ≡ initiators.old }
{
    let (start, end) = take_times(words)?;
    let bus = take_bus(initiators.board(), words)?;
    let who = take_who(initiators, bus, words)?;
    let command = take_command(words)?;
    let address = take_address(command.space(), words)?;
    Ok(Heading {
        start,
        end,
        bus,
        who,
        command,
        address,
    })
}

/// The next word, which is at this place.
fn next<'a>(words: &mut LineWords<'a>, place: usize) -> Result<&'a [u8], AtWord>
    ensures { MatchResult result
        (λ word. (words.old ≡ word.now ∷ words.new) × StandsAlone word.now)
        (λ fault. (fault ≡ misread place) × (words.old ≡ [])) }
{
    match words.take() {
        Some(word) => Ok(word),
        None => Err(misread(place)),
    }
}

fn take_times(words: &mut LineWords) -> Result<(u64, u64), AtWord>
    ensures { Gives result words.new (one_word 0 (λ word. of_kind (times_of word)) words.old) }
{
    match words.take_times() {
        Some(times) => Ok(times),
        None => take_other_times(words),
    }
}

/// The same, however the word ends.
fn take_other_times(words: &mut LineWords) -> Result<(u64, u64), AtWord>
    ensures { Gives result words.new (one_word 0 (λ word. of_kind (times_of word)) words.old) }
{
    let word = next(words, 0)?;
    times_of(word).ok_or(misread(0))
}

fn take_bus(board: &Board, words: &mut LineWords) -> Result<u8, AtWord>
    ensures { Gives result words.new (bus_form board.now words.old) }
{
    match words.take_number(10, 9) { // not a limit
        Some(number) => bus_there(board, number),
        None => take_other_bus(board, words),
    }
}

/// The same, however the word ends.
fn take_other_bus(board: &Board, words: &mut LineWords) -> Result<u8, AtWord>
    ensures { Gives result words.new (bus_form board.now words.old) }
{
    let word = next(words, 1)?;
    match number_of(word) {
        Some(number) => bus_there(board, u64::from(number)),
        None => Err(misread(1)),
    }
}

/// The bus of this number, if it is one of the board.
fn bus_there(board: &Board, number: u64) -> Result<u8, AtWord>
    ensures { (words : List (List ℕ)) →
        Gives result words (bus_by board.now (Ok (number, words))) }
{
    match u8::try_from(number) {
        Ok(bus) if is_bus(board, bus) => Ok(bus),
        _ => Err(AtWord {
            word: 1,
            fault: LogLineFault::NotThere,
        }),
    }
}

/// A decimal as in boards.
fn number_of(word: &[u8]) -> Option<u32>
    ensures { Reads result (decimal_of 0 4294967295 word.now) }
{
    match decimal(word) {
        Ok(number) => Some(number),
        Err(_fault) => None,
    }
}

fn take_who<'a>(
    initiators: &mut Initiators<'a>,
    bus: u8,
    words: &mut LineWords<'a>,
) -> Result<Who, AtWord>
    ensures read { Gives result words.new (one_word 2 (who_in initiators.old bus) words.old) }
    ensures board { initiators.new ≡ initiators.old }
{
    let word = next(words, 2)?;
    match initiators.find(bus, word) {
        Some(who) => Ok(who),
        None => Err(AtWord {
            word: 2,
            fault: LogLineFault::NotThere,
        }),
    }
}

fn take_command(words: &mut LineWords) -> Result<Command, AtWord>
    ensures { Gives result words.new (one_word 3 (λ word. of_kind (command_of word)) words.old) }
{
    let word = next(words, 3)?;
    command_of(word).ok_or(misread(3))
}

fn take_address(space: Space, words: &mut LineWords) -> Result<Addressed, AtWord>
    ensures { Gives result words.new (address_in space words.old) }
{
    match space {
        Space::Mem => take_memory_address(words),
        Space::Io => take_port_address(words),
        Space::Cfg => take_register(words),
    }
}

fn take_memory_address(words: &mut LineWords) -> Result<Addressed, AtWord>
    ensures { Gives result words.new (dword_by (as_in_boards 4 (long true words.old))) }
{
    match words.take_number(16, 8) { // not a limit
        Some(address) => dword_at(address),
        None => take_other_address(words),
    }
}

/// The same, where it is no HEX, or however the word ends.
fn take_other_address(words: &mut LineWords) -> Result<Addressed, AtWord>
    ensures { Gives result words.new (dword_by (as_in_boards 4 (long true words.old))) }
{
    let word = next(words, 4)?;
    match long_of(word) {
        Some(address) => dword_at(address),
        None => Err(misread(4)),
    }
}

/// A byte address that is a multiple of 4.
fn dword_at(address: u64) -> Result<Addressed, AtWord>
    ensures { (words : List (List ℕ)) → Gives result words (dword_by (Ok (address, words))) }
{
    if address % 4 == 0 {
        Ok(Addressed::Byte(address))
    } else {
        Err(misread(4))
    }
}

/// An address as in boards: HEX, or `UPPER:LOWER`.
fn long_of(word: &[u8]) -> Option<u64>
    requires { StandsAlone word.now }
    ensures { Reads result (long_of true word.now) }
{
    let mut words = Words::new(word);
    match words.long(true) {
        Ok(number) => Some(number),
        Err(_fault) => None,
    }
}

fn take_port_address(words: &mut LineWords) -> Result<Addressed, AtWord>
    ensures { Gives result words.new (dword_by (as_in_boards 4 (hex 8 words.old))) }
{
    match words.take_number(16, 8) { // not a limit
        Some(address) => dword_at(address),
        None => take_other_port(words),
    }
}

/// The same, however the word ends.
fn take_other_port(words: &mut LineWords) -> Result<Addressed, AtWord>
    ensures { Gives result words.new (dword_by (as_in_boards 4 (hex 8 words.old))) }
{
    let word = next(words, 4)?;
    match port_of(word) {
        Some(address) => dword_at(u64::from(address)),
        None => Err(misread(4)),
    }
}

/// HEX as in boards.
fn port_of(word: &[u8]) -> Option<u32>
    ensures { Reads result (hex_of 8 word.now) }
{
    match hex(word, 8) { // not a limit
        Ok(number) => Some(number),
        Err(_fault) => None,
    }
}

fn take_register(words: &mut LineWords) -> Result<Addressed, AtWord>
    ensures { Gives result words.new (one_word 4 (λ word. of_kind (register_of word)) words.old) }
{
    let word = next(words, 4)?;
    register_of(word).ok_or(misread(4))
}

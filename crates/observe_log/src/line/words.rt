//! What one word is read as.
ghost use Rattle.std.specs.Prelude.{◌≡◌};
ghost use Rattle.std.specs.Option.{option_map, option_and_then};
ghost use Rattle.std.specs.List.{position};
ghost use Rattle.board_model.specs.declared.agents.Master.{Master as MasterAgent};
ghost use Rattle.board_text.specs.Numbers.{decimal_answer};
ghost use Rattle.observe_log.specs.Words.{time_of, ordered, times_of};
ghost use Rattle.observe_log.specs.Words.{is_driver, as_place};
ghost use Rattle.observe_log.specs.Words.{bridge_by, lane_to, lane_in, who_by, who_in};
ghost use Rattle.observe_log.specs.Words.{register_command_of, command_of, part_of, device_of};
ghost use Rattle.observe_log.specs.Words.{type_0_of, type_1_of, behind_dot, register_of};
ghost use Rattle.observe_log.specs.Words.{without_last};
ghost use Rattle.observe_log.specs.Readers.{Found};

use crate::line::number::number_in;
use board_model::{Board, Lane, Master, end_of, has_bridge_to};
use board_statements::{is_word, parts};
use board_text::decimal;
use observe_told::{Addressed, Who};
use pci_command::Command;

/// `START-END`, or `START` alone, which stands for `START-START`.
pub(crate) fn times_of(word: &[u8]) -> Option<(u64, u64)>
    ensures { result ≡ times_of word.now }
{
    match parts(word, b'-') {
        Some((before, behind)) => {
            let start = time_of(before)?;
            let end = time_of(behind)?;
            ordered(start, end)
        }
        None => {
            let time = time_of(word)?;
            Some((time, time))
        }
    }
}

fn ordered(start: u64, end: u64) -> Option<(u64, u64)>
    ensures { result ≡ ordered start end }
{
    if start <= end {
        Some((start, end))
    } else {
        None
    }
}

/// A decimal of 1 to 18 digits.
fn time_of(word: &[u8]) -> Option<u64>
    ensures { result ≡ time_of word.now }
{
    match number_in(word, 10, 18) {
        Some(time) => Some(time),
        None => None,
    }
}

/// A master of the board on the bus, or a lane that ends on it.
pub(crate) fn who_in(board: &Board, bus: u8, word: &[u8]) -> Option<Who>
    ensures { Found result (who_in board.now bus word.now) }
{
    match master_in(board, bus, word) {
        Some(master) => Some(Who::Master(master)),
        None => lane_in(board, bus, word),
    }
}

fn master_in(board: &Board, bus: u8, word: &[u8]) -> Option<u16>
    ensures { result ≡ as_place (position (is_driver bus word.now) board.now.masters) }
{
    match place_of(board.masters.as_slice(), bus, word) {
        Some(place) => u16::try_from(place).ok(),
        None => None,
    }
}

fn place_of(masters: &[Master], bus: u8, word: &[u8]) -> Option<usize>
    ensures { result ≡ position (is_driver bus word.now) masters.now }
{
    masters
        .iter()
        .position(|master| is_driver(master, bus, word))
}

fn is_driver(master: &Master, bus: u8, word: &[u8]) -> bool
    ensures { result ≡ is_driver bus word.now master.now }
{
    master.bus == bus && master.name.bytes() == word
}

fn lane_in(board: &Board, bus: u8, word: &[u8]) -> Option<Who>
    ensures { result ≡ lane_in board.now bus word.now }
{
    let (front, last) = word.split_at(word.len().saturating_sub(1));
    match last {
        [b'u'] => lane_to(board, bus, true, front),
        [b'd'] => lane_to(board, bus, false, front),
        _ => None,
    }
}

/// The lane of the bridge of that number in this direction, where it ends on the bus.
fn lane_to(board: &Board, bus: u8, up: bool, number: &[u8]) -> Option<Who>
    ensures { result ≡ option_and_then (lane_to board.now bus up)
        (bridge_by board.now (decimal_answer number.now)) }
{
    let bridge = bridge_in(board, number)?;
    let lane = Lane { bus: bridge, up };
    if end_of(board, lane) == bus {
        Some(Who::Lane(lane))
    } else {
        None
    }
}

fn bridge_in(board: &Board, number: &[u8]) -> Option<u8>
    ensures { result ≡ bridge_by board.now (decimal_answer number.now) }
{
    let bus = u8::try_from(decimal(number).ok()?).ok()?;
    if has_bridge_to(board, bus) {
        Some(bus)
    } else {
        None
    }
}

/// One of the nine commands.
pub(crate) fn command_of(word: &[u8]) -> Option<Command>
    ensures { result ≡ command_of word.now }
{
    match word {
        b"mr" => Some(Command::MemRead),
        b"mrl" => Some(Command::MemReadLine),
        b"mrm" => Some(Command::MemReadMultiple),
        b"ior" => Some(Command::IoRead),
        b"mw" => Some(Command::MemWrite),
        b"mwi" => Some(Command::MemWriteInvalidate),
        b"iow" => Some(Command::IoWrite),
        _ => register_command_of(word),
    }
}

fn register_command_of(word: &[u8]) -> Option<Command>
    ensures { result ≡ register_command_of word.now }
{
    match word {
        b"cfr" => Some(Command::CfgRead),
        b"cfw" => Some(Command::CfgWrite),
        _ => None,
    }
}

/// A register in configuration space: `D.R` of type 0, `B.D.R` of type 1.
pub(crate) fn register_of(word: &[u8]) -> Option<Addressed>
    ensures { result ≡ register_of word.now }
{
    let (first, rest) = parts(word, b'.')?;
    behind_dot(first, rest)
}

fn behind_dot(first: &[u8], rest: &[u8]) -> Option<Addressed>
    ensures { result ≡ behind_dot first.now rest.now }
{
    match parts(rest, b'.') {
        Some((second, third)) => type_1_of(first, second, third),
        None => type_0_of(first, rest),
    }
}

fn type_0_of(first: &[u8], second: &[u8]) -> Option<Addressed>
    ensures { result ≡ type_0_of first.now second.now }
{
    let device = device_of(first)?;
    let register = part_of(second, 63)?;
    Some(Addressed::Type0 { device, register })
}

fn type_1_of(first: &[u8], second: &[u8], third: &[u8]) -> Option<Addressed>
    ensures { result ≡ type_1_of first.now second.now third.now }
{
    let bus = part_of(first, 255)?;
    let device = part_of(second, 31)?; // not a limit
    let register = part_of(third, 63)?;
    Some(Addressed::Type1 {
        bus,
        device,
        register,
    })
}

/// A device of type 0, or `-` where no IDSEL was up.
fn device_of(part: &[u8]) -> Option<Option<u8>>
    ensures { result ≡ device_of part.now }
{
    if is_word(part, b"-") {
        return Some(None);
    }
    let device = part_of(part, 31)?; // not a limit
    Some(Some(device))
}

/// A decimal of at most so much.
fn part_of(part: &[u8], most: u8) -> Option<u8>
    ensures { result ≡ part_of most part.now }
{
    let number = u8::try_from(decimal(part).ok()?).ok()?;
    if number <= most { Some(number) } else { None }
}

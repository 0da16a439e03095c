ghost use Rattle.std.specs.Prelude.{◌<◌, ◌^◌, length, IfOk, IsTrue};
ghost use Rattle.board_model.specs.WellFormed.{is_well_formed};
ghost use Rattle.board_parser.specs.Boards.{board_read};
ghost use Rattle.trace_reader.specs.Traces.{trace_read, Tells};
ghost use Rattle.trace_reader.specs.Parts.{TellsBoard};

use crate::TraceFault;
use crate::events::read_events;
use crate::parts::{behind_first_line, find_events};
use board_model::Board;
use board_parser::{ParseFault, parse, read_is_well_formed};
use history_model::Event;
use pci_command::List;
use std::alloc::Global;
use text_faults::OrNoMemory;

/// The board and the events of a trace text, or its first fault: of the first line, then no line
/// `events`, then of the board, then line by line behind `events`. A text has fewer than 2^31
/// bytes.
pub fn read_trace(
    alloc: Global,
    bytes: &[u8],
) -> Result<(Board, List<Event>), OrNoMemory<TraceFault>>
    requires { length bytes.now < 2 ^ 31 }
    ensures read { Tells result (trace_read bytes.now) }
    ensures formed { IfOk result (λ read. IsTrue (is_well_formed read.0)) }
    ensures few { IfOk result (λ read. length read.1 < 2 ^ 32) }
{
    let at = behind_first_line(bytes)?;
    let found = find_events(bytes, at)?;
    let board = read_board(alloc, &bytes[at..found.start])?;
    let events = read_events(alloc, &board, bytes, found.behind, found.number)?;
    Ok((board, events))
}

/// The board of this part of a text, in which it begins at the second line.
fn read_board(alloc: Global, part: &[u8]) -> Result<Board, OrNoMemory<TraceFault>>
    requires { length part.now < 2 ^ 31 }
    ensures read { TellsBoard result (board_read part.now) }
    ensures formed { IfOk result (λ board. IsTrue (is_well_formed board)) }
{
    read_is_well_formed();
    match parse(alloc, part) {
        Ok(board) => Ok(board),
        Err(ParseFault::Fault(at)) => Err(OrNoMemory::Fault(TraceFault::Board {
            line: at.line + 1,
            fault: at.fault,
        })),
        Err(ParseFault::NoMemory) => Err(OrNoMemory::NoMemory),
    }
}

ghost use Rattle.std.specs.Prelude.{◌<◌, ◌^◌, length, IfOk, IsTrue};
ghost use Rattle.board_model.specs.WellFormed.{is_well_formed};
ghost use Rattle.observe_log.specs.Logs.{log_read, Tells, TellsBoardOf};

use crate::LogFault;
use crate::board::read_board;
use crate::lines::read_lines;
use crate::parts::{behind_first_line, find_log};
use crate::reading::Reading;
use board_model::Board;
use observe_told::Log;
use pci_command::NoMemory;
use std::alloc::Global;
use text_faults::OrNoMemory;

/// The log of a text, or its first fault: of the first line, then no line `log`, then of the board,
/// then line by line behind `log`, then no `end` line. A text has fewer than 2^31 bytes.
pub fn read_log(alloc: Global, bytes: &[u8]) -> Result<Log, OrNoMemory<LogFault>>
    requires { length bytes.now < 2 ^ 31 }
    ensures read { Tells result (log_read bytes.now) }
    ensures formed { IfOk result (λ log. IsTrue (is_well_formed log.board)) }
{
    let at = behind_first_line(bytes)?;
    let found = find_log(bytes, at)?;
    let board = read_board(alloc, &bytes[at..found.start])?;
    let mut reading = Reading::new(alloc);
    read_lines(&board, bytes, found.behind, found.number, &mut reading)?;
    let (lines, phases) = reading.into_lists();
    Ok(Log {
        board,
        lines,
        phases,
    })
}

/// The board of a log text alone; its lines may have faults. Else the first fault, as before. A text
/// has fewer than 2^31 bytes.
#[tactic(auto, using(crate::proofs::BoardLemmas::tells_board))]
pub fn read_log_board(alloc: Global, bytes: &[u8]) -> Result<Board, OrNoMemory<LogFault>>
    requires { length bytes.now < 2 ^ 31 }
    ensures read { TellsBoardOf result (log_read bytes.now) }
    ensures formed { IfOk result (λ board. IsTrue (is_well_formed board)) }
{
    let at = behind_first_line(bytes)?;
    let found = find_log(bytes, at)?;
    let board = read_board(alloc, &bytes[at..found.start])?;
    Ok(board)
}

/// Which word of its line the first fault of a log text is, from 0, where it is a line behind `log`
/// that has one: else 0.
pub fn faulty_word(alloc: Global, bytes: &[u8]) -> Result<usize, NoMemory> {
    if bytes.len() >= 0x8000_0000 {
        return Ok(0);
    }
    match read_log(alloc, bytes) {
        Err(OrNoMemory::Fault(LogFault::Log { word, .. })) => Ok(word),
        Err(OrNoMemory::NoMemory) => Err(NoMemory),
        _ => Ok(0),
    }
}

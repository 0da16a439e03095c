ghost use Rattle.std.specs.Prelude.{◌≡◌, ◌<◌, ◌≤◌, ◌^◌, [], length, not, IfOk, IsTrue};
ghost use Rattle.board_model.specs.WellFormed.{is_well_formed};
ghost use Rattle.board_parser.specs.draft.Drafts.{board_of};
ghost use Rattle.board_parser.specs.Boards.{sheet_read};
ghost use Rattle.history_model.specs.Clear.{is_clear};
ghost use Rattle.dma_agents.specs.Made.{made_read, by_lines, unclear, Tells};
ghost use Rattle.dma_agents.specs.Parts.{TellsSheet};
ghost use Rattle.dma_agents.specs.Written.{IsWritten};
ghost use Rattle.std.specs.Prelude.{Ok};

use crate::clear::is_clear;
use crate::laws::made_boards_are_well_formed;
use crate::making::{Making, lines_read, misshapen};
use crate::parts::{behind_first_line, find_devices};
use crate::unclear::why_unclear;
use crate::written::{Written, written_on};
use crate::{DeviceOwner, Flag, MakeFault, Waiting};
use board_model::Board;
use board_parser::{ParseFault, Sheet, parse_sheet};
use pci_command::{List, NoMemory};
use std::alloc::Global;
use text_faults::OrNoMemory;

/// The board of a device text: that of its board part, with the masters of its devices and
/// handlers; or the first fault of the text. A text has fewer than 2^31 bytes.
pub fn make(alloc: Global, bytes: &[u8]) -> Result<Board, OrNoMemory<MakeFault>>
    requires { length bytes.now < 2 ^ 31 }
    ensures made { Tells result (made_read bytes.now) }
    ensures formed { IfOk result (λ board. IsTrue (is_well_formed board)) }
{
    made_boards_are_well_formed();
    read_made(alloc, bytes)
}

#[tactic(auto, using(crate::proofs::MakeLemmas::by_parts_found, crate::proofs::MakeLemmas::without_devices, crate::proofs::MakeLemmas::sheet_refused, crate::proofs::MakeLemmas::sheet_given))]
fn read_made(alloc: Global, bytes: &[u8]) -> Result<Board, OrNoMemory<MakeFault>>
    requires { length bytes.now < 2 ^ 31 }
    ensures { Tells result (made_read bytes.now) }
{
    let Some(at) = behind_first_line(bytes) else {
        return Err(OrNoMemory::Fault(misshapen(1)));
    };
    let found = match find_devices(bytes, at) {
        Ok(found) => found,
        Err(past) => return Err(OrNoMemory::Fault(misshapen(past))),
    };
    let sheet = read_sheet(alloc, &bytes[at..found.start])?;
    let first = sheet.master_count();
    let making = Making {
        sheet,
        owner: DeviceOwner::Nobody,
        waits: List::from_vec(Vec::new(alloc)),
    };
    let making = lines_read(alloc, making, bytes, found.behind, found.number)?;
    with_clear_flags(alloc, making, first)
}

/// The sheet of this part of a text, in which it begins at the second line.
fn read_sheet(alloc: Global, part: &[u8]) -> Result<Sheet, OrNoMemory<MakeFault>>
    requires { length part.now < 2 ^ 31 }
    ensures { TellsSheet result (sheet_read part.now) }
{
    match parse_sheet(alloc, part) {
        Ok(sheet) => Ok(sheet),
        Err(ParseFault::Fault(at)) => Err(OrNoMemory::Fault(MakeFault::Board {
            line: at.line + 1,
            fault: at.fault,
        })),
        Err(ParseFault::NoMemory) => Err(OrNoMemory::NoMemory),
    }
}

/// The board, where all flags that are waited for are clear.
fn with_clear_flags(
    alloc: Global,
    making: Making,
    first: usize,
) -> Result<Board, OrNoMemory<MakeFault>>
    ensures { Tells result (by_lines first (Ok making)) }
{
    let Making {
        sheet,
        owner: _,
        waits,
    } = making;
    let _first = first;
    let board = sheet.into_board(alloc)?;
    match unclear(alloc, &board, waits.as_slice())? {
        None => Ok(board),
        Some(wait) => Err(OrNoMemory::Fault(MakeFault::NotClear {
            line: wait.line,
            flag: wait.flag,
            why: why_unclear(alloc, &board, wait.flag)?,
        })),
    }
}

fn unclear(alloc: Global, board: &Board, waits: &[Waiting]) -> Result<Option<Waiting>, NoMemory>
    ensures { IfOk result (λ found. found ≡ unclear board.now waits.now) }
{
    let written = written_on(alloc, board)?;
    Ok(first_unclear(board, &written, waits))
}

fn first_unclear(board: &Board, written: &Written, waits: &[Waiting]) -> Option<Waiting>
    requires { IsWritten board.now.masters written.now }
    ensures { result ≡ unclear board.now waits.now }
{
    waits
        .iter()
        .copied()
        .find(|wait| is_unclear(board, written, wait.flag))
}

fn is_unclear(board: &Board, written: &Written, flag: Flag) -> bool
    requires { IsWritten board.now.masters written.now }
    ensures { result ≡ not (is_clear board.now flag.address flag.value) }
{
    !is_clear(board, written, flag.address, flag.value)
}

ghost use Rattle.std.specs.Prelude.{◌≡◌, ◌+◌, ◌<◌, ◌^◌, length, IfErr};
ghost use Rattle.board_parser.specs.Boards.{board_read, sheet_read, Tells, TellsSheet, IsWithin};

use crate::ParseFault;
use crate::draft::{AddFault, Sheet};
use crate::line::read_line;
use board_model::Board;
use board_text::next_line;
use std::alloc::Global;
use text_faults::{AtLine, LineFault};

/// The board of a text, or its first fault. A text has fewer than 2^31 bytes. Lines are numbered
/// from 1, and the first line with a fault decides; of the faults of one line a byte or a length
/// that no line may have comes first, then what its words say, from left to right, and then what
/// the line would add to the board.
pub fn parse(alloc: Global, bytes: &[u8]) -> Result<Board, ParseFault>
    requires { length bytes.now < 2 ^ 31 }
    ensures read { Tells result (board_read bytes.now) }
    ensures numbered { IfErr result (IsWithin (length bytes.now + 1)) }
{
    let sheet = parse_sheet(alloc, bytes)?;
    Ok(sheet.into_board(alloc)?)
}

/// The sheet of a text, to which more can be added, or the first fault of the text, as `parse`
/// tells it. A text has fewer than 2^31 bytes.
pub fn parse_sheet(alloc: Global, bytes: &[u8]) -> Result<Sheet, ParseFault>
    requires { length bytes.now < 2 ^ 31 }
    ensures read { TellsSheet result (sheet_read bytes.now) }
    ensures numbered { IfErr result (IsWithin (length bytes.now + 1)) }
{
    let mut sheet = None;
    let mut number = 1;
    let mut at = 0;
    while let Some((line, next)) = next_line(bytes, at) {
        match read_line(alloc, &mut sheet, line) {
            Ok(()) => {}
            Err(AddFault::Fault(fault)) => {
                return Err(ParseFault::Fault(AtLine {
                    line: number,
                    fault,
                }));
            }
            Err(AddFault::NoMemory) => return Err(ParseFault::NoMemory),
        }
        number += 1;
        at = next;
    }
    match sheet {
        None => Err(ParseFault::Fault(AtLine {
            line: 1,
            fault: LineFault::NoFirstLine,
        })),
        Some(sheet) => Ok(sheet),
    }
}

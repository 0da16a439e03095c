ghost use Rattle.std.specs.Prelude.{◌≡◌, Ok, IsTrue};
ghost use Rattle.board_model.specs.WellFormed.{is_well_formed};
ghost use Rattle.board_printer.specs.Boards.{board_text};
ghost use Rattle.board_parser.specs.Boards.{board_read};

use crate::boards_are_read;
use board_model::{Board, board_fits};

/// The text of a well-formed board of the program is read as that board.
pub fn printed_is_read(board: &Board)
    requires { IsTrue (is_well_formed board.now) }
    ensures { board_read (board_text board.now) ≡ Ok board.now }
{
    board_fits(board);
    boards_are_read();
}

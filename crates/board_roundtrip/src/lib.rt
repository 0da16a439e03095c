//! What is printed of a board is read as the same board. The law is the contract of a function that
//! does nothing. A board of the program meets it (`board_fits` of `board_model`). In a `pciboard 1`
//! text it is of addresses, sizes and limits below 2^32.
#![tactic(auto)]

mod fits;
pub mod lines;
pub mod words;

ghost use Rattle.std.specs.Prelude.{◌≡◌, Ok, true};
ghost use Rattle.board_model.specs.declared.board.Board.{Board};
ghost use Rattle.board_model.specs.WellFormed.{is_well_formed};
ghost use Rattle.board_printer.specs.Boards.{board_text};
ghost use Rattle.board_parser.specs.Boards.{board_read};
ghost use Rattle.board_model.specs.Fits.{BoardFits};

pub use fits::printed_is_read;
pub use lines::{
    bridges_are_read, first_line_is_read, masters_are_read, plans_are_read, ranges_are_read,
    targets_are_read, words_are_read,
};
pub use words::{lines_are_read_again, numbers_are_read_again};

/// The canonical text of a well-formed board is read as that board.
pub fn boards_are_read()
    ensures { (board : Board) → BoardFits board → is_well_formed board ≡ true →
        board_read (board_text board) ≡ Ok board }
{}

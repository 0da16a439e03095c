//! Whether a board is that of the machine of which `lspci` wrote, judged by the functions that were
//! read; how it was made is not asked.
ghost use Rattle.std.specs.Prelude.{◌≡◌, IsTrue};
ghost use Rattle.import_bridges.specs.Functions.{first_root};
ghost use Rattle.import_board.specs.Machine.{IsMachine, is_machine};

mod bridges;
mod buses;
mod plain;
mod ranges;
mod spans;
mod targets;

use crate::holds::bridges::{bridges_are_kept, bridges_are_told};
use crate::holds::plain::has_nothing_else;
use crate::holds::ranges::ranges_are_kept;
use crate::holds::targets::targets_are_told;
use board_model::Board;
use import_bridges::{Root, first_root};
use import_text::Function;

/// Whether the board is that of the machine of these functions, below the least bus of the least
/// domain.
pub fn is_machine(functions: &[Function], board: &Board) -> bool
    ensures { IsTrue result → IsMachine (first_root functions.now) functions.now board.now }
{
    judged(first_root(functions), functions, board)
}

fn judged(root: Root, functions: &[Function], board: &Board) -> bool
    ensures { result ≡ is_machine root functions.now board.now }
{
    bridges_are_told(root, functions, board)
        && targets_are_told(root, functions, board)
        && bridges_are_kept(root, functions, board)
        && ranges_are_kept(root, functions, board)
        && has_nothing_else(board)
}

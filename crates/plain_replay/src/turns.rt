ghost use Rattle.std.specs.Prelude.{◌≡◌, IsTrue};
ghost use Rattle.board_model.specs.WellFormed.{is_well_formed};
ghost use Rattle.history_model.specs.Program.{turn_of, turn_after, ended};
ghost use Rattle.history_model.specs.Runs.{history_of};

use board_model::Board;
use history_model::Event;
use machine_steps::{first_turn, turn_after};
use pci_command::OpId;

/// The operation that is the master's turn after these events, the first event first; none where
/// its program ended.
pub fn turn_of(board: &Board, before: &[Event], master: u16) -> Option<OpId>
    requires { IsTrue (is_well_formed board.now) }
    ensures { result ≡ turn_of board.now (history_of before.now) master }
{
    let mut turn = first_turn(board, master);
    for event in before {
        turn = turn_after(board, master, turn, event);
    }
    turn
}

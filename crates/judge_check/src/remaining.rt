//! What a run has left, and whether it is complete, by the state that is kept of it: each master,
//! bridge and target is looked at once, however many events there were. It takes no memory.
mod carried;
mod completing;
mod planned;
mod programs;
mod waiting;

ghost use Rattle.std.specs.Prelude.{◌≡◌, ◌↔◌, List, IsTrue};
ghost use Rattle.history_model.specs.declared.event.Event.{Event};
ghost use Rattle.history_model.specs.Runs.{Complete};
ghost use Rattle.history_model.specs.Left.{left_of};
ghost use Rattle.judge_state.specs.Stands.{StandsFor, Stands};
ghost use Rattle.judge_check.specs.remaining.Now.{left_now, CompleteNow};
ghost use Rattle.judge_check.specs.remaining.Running.{IsRunning};

use crate::remaining::carried::bridges_left;
use crate::remaining::completing::{are_idle, have_ended};
use crate::remaining::planned::{discards_left, drops_left, stalls_left};
use crate::remaining::programs::programs_left;
use board_model::Board;
use board_tree::Tree;
use judge_state::Kept;

/// How many events can follow the run at most: a count that each event lowers.
pub fn left(kept: &Kept, tree: &Tree) -> u64
    requires { Stands tree.now kept.now }
    ensures { (h : List Event) → StandsFor tree.now h kept.now → result ≡ left_of tree.now h }
{
    left_on(kept, tree.board())
}

fn left_on(kept: &Kept, board: &Board) -> u64
    requires { IsRunning board.now kept.now }
    ensures { result ≡ left_now board.now kept.now }
{
    programs_left(kept, board)
        + bridges_left(kept, board)
        + stalls_left(kept, board)
        + discards_left(kept, board)
        + drops_left(kept, board)
}

/// Whether the run is complete: the program of every master ended, and nothing is in flight or
/// stands on any lane.
pub fn is_complete(kept: &Kept, tree: &Tree) -> bool
    requires { Stands tree.now kept.now }
    ensures { (h : List Event) → StandsFor tree.now h kept.now →
        IsTrue result ↔ Complete tree.now h }
{
    is_complete_on(kept, tree.board())
}

fn is_complete_on(kept: &Kept, board: &Board) -> bool
    requires { IsRunning board.now kept.now }
    ensures { IsTrue result ↔ CompleteNow board.now kept.now }
{
    have_ended(kept, board) && are_idle(kept, board)
}

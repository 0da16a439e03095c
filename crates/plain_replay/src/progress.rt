ghost use Rattle.std.specs.Prelude.{◌≡◌};
ghost use Rattle.history_model.specs.Runs.{Run, history_of};
ghost use Rattle.history_model.specs.Left.{left_of};
ghost use Rattle.judge_lanes.specs.Running.{IsRunning};

use crate::carried::bridges_left;
use crate::planned::{discards_left, drops_left, stalls_left};
use crate::programs::programs_left;
use board_model::Board;
use board_tree::Tree;
use history_model::Event;

/// How many events can follow a run of the board at most. The events of the run are given the
/// first event first. No command calls it: it is for callers that have no memory.
pub fn left(tree: &Tree, events: &[Event]) -> u64
    requires { Run tree.now (history_of events.now) }
    ensures { result ≡ left_of tree.now (history_of events.now) }
{
    left_on(tree.board(), events)
}

fn left_on(board: &Board, events: &[Event]) -> u64
    requires { IsRunning board.now (history_of events.now) }
    ensures { result ≡ left_of board.now (history_of events.now) }
{
    programs_left(board, events)
        + bridges_left(board, events)
        + stalls_left(board, events)
        + discards_left(board, events)
        + drops_left(board, events)
}

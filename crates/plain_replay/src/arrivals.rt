ghost use Rattle.std.specs.Prelude.{◌≡◌, IsTrue};
ghost use Rattle.board_model.specs.WellFormed.{is_well_formed};
ghost use Rattle.history_model.specs.Runs.{Run, history_of, next_mark};

use crate::lanes::lanes_after_events;
use board_model::{Board, Lane};
use history_model::{Event, Mark};
use judge_lanes::mark_of_first;

/// The mark of the next arrival on the lane after these events, the first event first; none where
/// nothing is in flight.
pub fn next_mark(board: &Board, before: &[Event], lane: Lane) -> Option<Mark>
    requires formed { IsTrue (is_well_formed board.now) }
    requires run { Run board.now (history_of before.now) }
    ensures { result ≡ next_mark board.now (history_of before.now) lane }
{
    let lanes = lanes_after_events(board, before, lane.bus);
    mark_of_first(board, lane, lanes.lane(lane.up))
}

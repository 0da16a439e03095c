ghost use Rattle.std.specs.Prelude.{◌≡◌, ◌↔◌, IfSome, IsTrue, None};
ghost use Rattle.board_model.specs.WellFormed.{is_well_formed};
ghost use Rattle.history_model.specs.Runs.{Run, Allowed, Complete, history_of};
ghost use Rattle.history_model.specs.Next.{next_of};

use crate::acts::first_act;
use crate::first_arrivals::first_arrival;
use board_model::{Board, board_fits};
use board_tree::Tree;
use history_model::Event;
use law_lanes::next_goes_on;

/// The next event of a run in a fixed order: the first arrival that is allowed, by increasing bus
/// and there by line; then the first act, by increasing bus, line and, of a lane, in the order in
/// which its items stand. The lines of a bus are the lane of its own bridge, the lanes of the
/// bridges below it by increasing number, and its masters in the order of the board. There is none
/// where the run is complete. The events of the run are given the first event first.
pub fn next_event(tree: &Tree, events: &[Event]) -> Option<Event>
    requires { Run tree.now (history_of events.now) }
    ensures next { result ≡ next_of tree.now (history_of events.now) }
    ensures allowed { IfSome result (Allowed tree.now (history_of events.now)) }
    ensures complete { result ≡ None ↔ Complete tree.now (history_of events.now) }
{
    next_goes_on();
    let board = tree.board();
    board_fits(board);
    next_on(board, events)
}

/// The next event of a run of the board.
fn next_on(board: &Board, events: &[Event]) -> Option<Event>
    requires formed { IsTrue (is_well_formed board.now) }
    requires run { Run board.now (history_of events.now) }
    ensures { result ≡ next_of board.now (history_of events.now) }
{
    match first_arrival(board, events) {
        Some(event) => Some(event),
        None => first_act(board, events),
    }
}

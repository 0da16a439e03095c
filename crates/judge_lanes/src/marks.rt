ghost use Rattle.std.specs.Prelude.{◌≡◌, ◌+◌, ◌==◌, IsTrue, Option};
ghost use Rattle.std.specs.List.{list_any};
ghost use Rattle.history_model.specs.World.{same_lane};
ghost use Rattle.history_model.specs.Runs.{names, mark_of, mark_of_first};

use crate::lane_tables::LaneTables;
use board_model::{Board, Lane, Planned};
use history_model::{Carried, Mark};

/// The mark of the next arrival on the lane, with this on it; none where nothing is in flight.
pub fn mark_of_first(board: &Board, lane: Lane, state: &LaneTables) -> Option<Mark>
    ensures { result ≡ mark_of_first board.now lane state.now state.now.flight }
{
    match state.flight().first() {
        Some(item) => Some(mark_of(board, lane, state, *item)),
        None => None,
    }
}

/// How the board marks the arrival of the item, which is the next of its lane.
fn mark_of(board: &Board, lane: Lane, state: &LaneTables, item: Carried) -> Mark
    ensures { result ≡ mark_of board.now lane state.now item }
{
    match item {
        Carried::Ask { .. } if is_named(board.drops.as_slice(), lane, state.asks()) => Mark::Drop,
        Carried::Done { .. } if is_named(board.discards.as_slice(), lane, state.dones()) => {
            Mark::Discard
        }
        _ => Mark::Plain,
    }
}

/// Whether one of the lines names the item that comes on the lane after so many of its kind.
fn is_named(planned: &[Planned], lane: Lane, before: u64) -> bool
    ensures { result ≡ list_any (names lane (before + 1)) planned.now }
{
    planned.iter().any(|planned| names(planned, lane, before))
}

fn names(planned: &Planned, lane: Lane, before: u64) -> bool
    ensures { result ≡ names lane (before + 1) planned.now }
{
    let is_on_lane = planned.bus == lane.bus && planned.up == lane.up;
    is_on_lane && u128::from(planned.count) == u128::from(before) + 1
}

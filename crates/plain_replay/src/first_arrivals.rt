ghost use Rattle.std.specs.Prelude.{◌≡◌, IsTrue};
ghost use Rattle.board_model.specs.WellFormed.{is_well_formed};
ghost use Rattle.history_model.specs.Runs.{Run, history_of, next_mark};
ghost use Rattle.history_model.specs.Next.{first_bus, up_from, given_on, first_lane, arrival_of};
ghost use Rattle.history_model.specs.Next.{arrival_at, first_arrival};

use crate::arrivals::next_mark;
use crate::lanes::{down_to, up_from};
use board_model::{Board, Lane};
use history_model::Event;
use machine_steps::{arrival_of, ends_on};

/// The first arrival, by increasing bus and there by line.
#[tactic(auto, using(law_lanes::proofs::progress::NextFirstLemmas::first_more))]
pub(crate) fn first_arrival(board: &Board, before: &[Event]) -> Option<Event>
    requires formed { IsTrue (is_well_formed board.now) }
    requires run { Run board.now (history_of before.now) }
    ensures { result ≡ first_arrival board.now (history_of before.now) }
{
    for bus in 0..256u16 {
        if let Some(event) = arrival_on(board, before, bus as u8) {
            return Some(event);
        }
    }
    None
}

/// The first arrival on the bus: on the lane of its own bridge, or on those of the bridges below.
fn arrival_on(board: &Board, before: &[Event], bus: u8) -> Option<Event>
    requires formed { IsTrue (is_well_formed board.now) }
    requires run { Run board.now (history_of before.now) }
    ensures { result ≡ first_lane board.now bus (arrival_at board.now (history_of before.now)) }
{
    match arrival_from(board, before, bus, down_to(bus)) {
        Some(event) => Some(event),
        None => arrival_from_below(board, before, bus),
    }
}

/// The first arrival on the bus from a bridge below, by increasing number.
#[tactic(auto, using(law_lanes::proofs::progress::NextFirstLemmas::first_more))]
fn arrival_from_below(board: &Board, before: &[Event], bus: u8) -> Option<Event>
    requires formed { IsTrue (is_well_formed board.now) }
    requires run { Run board.now (history_of before.now) }
    ensures { result ≡ first_bus (λ child. given_on board.now bus
        (arrival_at board.now (history_of before.now)) (up_from child)) }
{
    for child in 0..256u16 {
        if let Some(event) = arrival_from(board, before, bus, up_from(child as u8)) {
            return Some(event);
        }
    }
    None
}

/// The next arrival from the lane, where that ends on the bus.
fn arrival_from(board: &Board, before: &[Event], bus: u8, lane: Lane) -> Option<Event>
    requires formed { IsTrue (is_well_formed board.now) }
    requires run { Run board.now (history_of before.now) }
    ensures { result ≡ given_on board.now bus (arrival_at board.now (history_of before.now)) lane }
{
    if ends_on(board, bus, lane) {
        arrival_of(lane, next_mark(board, before, lane))
    } else {
        None
    }
}

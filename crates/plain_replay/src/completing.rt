ghost use Rattle.std.specs.Prelude.{◌≡◌, ◌↔◌, ℕ, ◌<◌, IsTrue, None, length, true, false};
ghost use Rattle.std.specs.List.{AllByRecursion};
ghost use Rattle.board_model.specs.declared.bridge.Bridge.{Bridge};
ghost use Rattle.board_model.specs.WellFormed.{is_well_formed};
ghost use Rattle.history_model.specs.World.{world_of};
ghost use Rattle.history_model.specs.Program.{turn_of};
ghost use Rattle.history_model.specs.Runs.{Run, IsIdle, Complete, history_of};

use crate::lanes::lanes_after_events;
use crate::turns::turn_of;
use board_model::Board;
use history_model::Event;
use judge_lanes::LaneTables;

/// Whether a run is complete: the program of every master ended, and nothing is in flight or stands
/// on any lane. The events are given the first event first.
pub fn complete(board: &Board, events: &[Event]) -> bool
    requires formed { IsTrue (is_well_formed board.now) }
    requires run { Run board.now (history_of events.now) }
    ensures { IsTrue result ↔ Complete board.now (history_of events.now) }
{
    have_ended(board, events) && are_idle(board, events)
}

/// Whether the program of every master ended.
#[tactic(auto, using(board_model::proofs::FewLemmas::few_masters_before, board_model::proofs::FewLemmas::master_more))]
fn have_ended(board: &Board, events: &[Event]) -> bool
    requires { IsTrue (is_well_formed board.now) }
    ensures { IsTrue result ↔ ((master : ℕ) → master < length board.now.masters →
        turn_of board.now (history_of events.now) master ≡ None) }
{
    for (index, master) in board.masters.as_slice().iter().enumerate() {
        // It is one of 256 buses, with eight masters at most on each.
        let _bus = master.bus;
        if turn_of(board, events, index as u16).is_some() {
            return false;
        }
    }
    true
}

/// Whether both lanes of every bridge are idle.
fn are_idle(board: &Board, events: &[Event]) -> bool
    requires formed { IsTrue (is_well_formed board.now) }
    requires run { Run board.now (history_of events.now) }
    ensures { IsTrue result ↔ AllByRecursion (λ (bridge : Bridge). IsIdle (world_of board.now
        (history_of events.now) (record { bus = bridge.bus; up = false }))
        × IsIdle (world_of board.now (history_of events.now)
        (record { bus = bridge.bus; up = true }))) board.now.bridges }
{
    for bridge in board.bridges.as_slice() {
        if !has_idle_lanes(board, events, bridge.bus) {
            return false;
        }
    }
    true
}

fn has_idle_lanes(board: &Board, events: &[Event], bus: u8) -> bool
    requires formed { IsTrue (is_well_formed board.now) }
    requires run { Run board.now (history_of events.now) }
    ensures { IsTrue result ↔
        (IsIdle (world_of board.now (history_of events.now) (record { bus = bus; up = false }))
        × IsIdle (world_of board.now (history_of events.now) (record { bus = bus; up = true }))) }
{
    let lanes = lanes_after_events(board, events, bus);
    is_idle(lanes.lane(false)) && is_idle(lanes.lane(true))
}

/// Whether nothing is in flight on the lane, and nothing stands.
fn is_idle(lane: &LaneTables) -> bool
    ensures { IsTrue result ↔ IsIdle lane.now }
{
    lane.flight().is_empty() && lane.standing().is_empty()
}

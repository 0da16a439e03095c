ghost use Rattle.std.specs.Prelude.{◌≡◌, ◌↔◌, ◌<◌, ℕ, None, IsTrue, length, true, false};
ghost use Rattle.std.specs.List.{AllByRecursion};
ghost use Rattle.board_model.specs.WellFormed.{is_well_formed};
ghost use Rattle.history_model.specs.Runs.{IsIdle};
ghost use Rattle.judge_state.specs.State.{turn_in, lane_in};
ghost use Rattle.judge_check.specs.remaining.Now.{IsIdleNow};

use board_model::Board;
use judge_lanes::LaneTables;
use judge_state::Kept;

/// Whether the program of every master ended.
#[tactic(auto, using(board_model::proofs::FewLemmas::few_masters_before, board_model::proofs::FewLemmas::master_more))]
pub(crate) fn have_ended(kept: &Kept, board: &Board) -> bool
    requires { IsTrue (is_well_formed board.now) }
    ensures { IsTrue result ↔
        ((master : ℕ) → master < length board.now.masters → turn_in kept.now.turns master ≡ None) }
{
    for (index, master) in board.masters.as_slice().iter().enumerate() {
        // It is one of 256 buses, with few masters on each.
        let _bus = master.bus;
        if kept.turn(index as u16).is_some() {
            return false;
        }
    }
    true
}

/// Whether both lanes of every bridge are idle.
pub(crate) fn are_idle(kept: &Kept, board: &Board) -> bool
    ensures { IsTrue result ↔ AllByRecursion (IsIdleNow board.now kept.now) board.now.bridges }
{
    for bridge in board.bridges.as_slice() {
        if !has_idle_lanes(kept, board, bridge.bus) {
            return false;
        }
    }
    true
}

fn has_idle_lanes(kept: &Kept, board: &Board, bus: u8) -> bool
    ensures { IsTrue result ↔
        (IsIdle (lane_in board.now kept.now.lanes (record { bus = bus; up = false })) ×
        IsIdle (lane_in board.now kept.now.lanes (record { bus = bus; up = true }))) }
{
    match kept.lanes_to(board, bus) {
        Some(lanes) => is_idle(lanes.lane(false)) && is_idle(lanes.lane(true)),
        None => true,
    }
}

/// Whether nothing is in flight on the lane, and nothing stands.
fn is_idle(lane: &LaneTables) -> bool
    ensures { IsTrue result ↔ IsIdle lane.now }
{
    lane.flight().is_empty() && lane.standing().is_empty()
}

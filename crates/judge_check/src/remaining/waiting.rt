ghost use Rattle.std.specs.Prelude.{◌≡◌, ◌≤◌, Some};
ghost use Rattle.std.specs.List.{list_any};
ghost use Rattle.board_model.specs.Ways.{way, route_within};
ghost use Rattle.history_model.specs.Left.{is_slot_of, reach_of, reach_left, delayed_left};
ghost use Rattle.judge_state.specs.State.{lane_in};
ghost use Rattle.judge_check.specs.remaining.Now.{world_now};
ghost use Rattle.judge_check.specs.remaining.Running.{IsRunning};

use board_model::{Board, Lane, Op, Place, claim, end_of, request_on};
use board_tree::route_of;
use judge_lanes::{Reach, found_left, has_slot};
use judge_state::Kept;
use pci_command::OpId;

/// What a try of a delayed request has left, by the place of the item of its furthest slot.
pub(crate) fn delayed_left(kept: &Kept, board: &Board, on: u8, op: OpId, found: &Op) -> u32
    requires { IsRunning board.now kept.now }
    ensures value { result ≡
        delayed_left (world_now board.now kept.now) op (way board.now found.now on) }
    ensures fits { result ≤ 2000 }
{
    let long = route_of(board, found, on).lanes;
    let most = board.bridges.as_slice().len() as u8;
    let reach = reach_of(kept, board, on, op, found, most);
    reach_left(kept, board, op, long, reach)
}

/// How far the slots of the operation reach on the first so many lanes of its way.
fn reach_of(kept: &Kept, board: &Board, on: u8, op: OpId, found: &Op, most: u8) -> Reach
    requires { IsRunning board.now kept.now }
    ensures lanes { result.lanes ≡ (reach_of (world_now board.now kept.now) op
        (route_within most board.now found.now on).lanes).lanes }
    ensures last { result.last ≡ (reach_of (world_now board.now kept.now) op
        (route_within most board.now found.now on).lanes).last }
    ensures short { result.lanes ≤ most }
{
    if most == 0 {
        return Reach::none();
    }
    match claim(board, on, &request_on(found, on)) {
        Place::Lane(lane) => {
            if !holds_slot(kept, board, lane, op) {
                return Reach::none();
            }
            let behind = reach_of(kept, board, end_of(board, lane), op, found, most - 1);
            Reach::through(lane, behind)
        }
        Place::Target(_) => Reach::none(),
        Place::Header(_) => Reach::none(),
        Place::Nobody => Reach::none(),
    }
}

/// Whether a slot is held for the operation where the lane begins.
fn holds_slot(kept: &Kept, board: &Board, lane: Lane, op: OpId) -> bool
    ensures { result ≡ list_any (is_slot_of op) (lane_in board.now kept.now.lanes lane).held }
{
    match kept.lanes_to(board, lane.bus) {
        Some(lanes) => has_slot(lanes.lane(lane.up), op),
        None => false,
    }
}

fn reach_left(kept: &Kept, board: &Board, op: OpId, long: u8, reach: Reach) -> u32
    ensures value { result ≡
        reach_left (world_now board.now kept.now) op long reach.lanes reach.last }
    ensures fits { result ≤ 2000 }
{
    match reach.last {
        None => 4 * u32::from(long) + 1,
        Some(lane) => lane_left(kept, board, op, long, reach.lanes, lane),
    }
}

/// By the furthest slot, on this lane.
fn lane_left(kept: &Kept, board: &Board, op: OpId, long: u8, far: u8, lane: Lane) -> u32
    ensures value { result ≡ reach_left (world_now board.now kept.now) op long far (Some lane) }
    ensures fits { result ≤ 2000 }
{
    match kept.lanes_to(board, lane.bus) {
        Some(lanes) => found_left(long, far, lanes.lane(lane.up), lanes.lane(!lane.up), op),
        None => 4 * u32::from(long) + 1,
    }
}

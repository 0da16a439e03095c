ghost use Rattle.std.specs.Prelude.{◌≡◌, ◌+◌, ◌*◌, ◌-◌, ◌<◌, ◌≤◌, length, Some, None};
ghost use Rattle.std.specs.Option.{option_copied};
ghost use Rattle.std.specs.List.{find, list_any};
ghost use Rattle.board_model.specs.Ways.{way, route_within};
ghost use Rattle.history_model.specs.Lanes.{is_done_for};
ghost use Rattle.history_model.specs.World.{world_of};
ghost use Rattle.history_model.specs.Runs.{history_of};
ghost use Rattle.history_model.specs.Local.{is_ask_of, is_gone_of};
ghost use Rattle.history_model.specs.Left.{is_slot_of, lane_or, reach_of, slot_left, reach_left};
ghost use Rattle.history_model.specs.Left.{delayed_left};
ghost use Rattle.judge_lanes.specs.Running.{IsRunning};

use crate::lanes::lanes_after_events;
use board_model::{Board, Lane, Op, Place, claim, end_of, request_on};
use board_tree::route_of;
use history_model::Event;
use judge_lanes::{Reach, found_left, has_slot};
use pci_command::OpId;

/// What a try of a delayed request has left, by the place of the item of its furthest slot.
pub(crate) fn delayed_left(board: &Board, events: &[Event], on: u8, op: OpId, found: &Op) -> u32
    requires { IsRunning board.now (history_of events.now) }
    ensures value { result ≡
        delayed_left (world_of board.now (history_of events.now)) op (way board.now found.now on) }
    ensures fits { result ≤ 2000 }
{
    let long = route_of(board, found, on).lanes;
    let most = board.bridges.as_slice().len() as u8;
    let reach = reach_of(board, events, on, op, found, most);
    reach_left(board, events, op, long, reach.lanes, reach.last)
}

/// How far the slots of the operation reach on the first so many lanes of its way.
fn reach_of(board: &Board, events: &[Event], on: u8, op: OpId, found: &Op, most: u8) -> Reach
    requires { IsRunning board.now (history_of events.now) }
    ensures lanes { result.lanes ≡ (reach_of (world_of board.now (history_of events.now)) op
        (route_within most board.now found.now on).lanes).lanes }
    ensures last { result.last ≡ (reach_of (world_of board.now (history_of events.now)) op
        (route_within most board.now found.now on).lanes).last }
    ensures short { result.lanes ≤ most }
{
    if most == 0 {
        return Reach::none();
    }
    match claim(board, on, &request_on(found, on)) {
        Place::Lane(lane) => {
            if !holds_slot(board, events, lane, op) {
                return Reach::none();
            }
            let behind = reach_of(board, events, end_of(board, lane), op, found, most - 1);
            Reach::through(lane, behind)
        }
        Place::Target(_) => Reach::none(),
        Place::Header(_) => Reach::none(),
        Place::Nobody => Reach::none(),
    }
}

/// Whether a slot is held for the operation where the lane begins.
fn holds_slot(board: &Board, events: &[Event], lane: Lane, op: OpId) -> bool
    requires { IsRunning board.now (history_of events.now) }
    ensures { result ≡
        list_any (is_slot_of op) (world_of board.now (history_of events.now) lane).held }
{
    let lanes = lanes_after_events(board, events, lane.bus);
    has_slot(lanes.lane(lane.up), op)
}

fn reach_left(
    board: &Board,
    events: &[Event],
    op: OpId,
    long: u8,
    far: u8,
    last: Option<Lane>,
) -> u32
    requires { IsRunning board.now (history_of events.now) }
    ensures value { result ≡
        reach_left (world_of board.now (history_of events.now)) op long far last }
    ensures fits { result ≤ 2000 }
{
    match last {
        None => 4 * u32::from(long) + 1,
        Some(lane) => {
            let lanes = lanes_after_events(board, events, lane.bus);
            found_left(long, far, lanes.lane(lane.up), lanes.lane(!lane.up), op)
        }
    }
}

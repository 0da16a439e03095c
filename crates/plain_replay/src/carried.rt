ghost use Rattle.std.specs.Prelude.{◌≡◌, ◌+◌, ◌*◌, ◌-◌, ◌≤◌, length, true, false};
ghost use Rattle.list_facts.specs.Lists.{total};
ghost use Rattle.board_model.specs.Requests.{op_of};
ghost use Rattle.history_model.specs.World.{world_of};
ghost use Rattle.history_model.specs.Runs.{history_of};
ghost use Rattle.history_model.specs.Left.{post_left, flying_left, standing_left, lane_left};
ghost use Rattle.history_model.specs.Left.{bridge_left};
ghost use Rattle.judge_lanes.specs.Running.{IsRunning};
ghost use Rattle.board_model.specs.Limits.{most_bridges, most_in_flight, most_standing};

use crate::lanes::lanes_after_events;
use crate::words::through;
use board_model::{Board, Lane, end_of, op_of};
use history_model::{Carried, Event};
use judge_lanes::{LaneTables, posted_left};
use pci_command::OpId;

/// What posted writes and credits on the lanes of all bridges have left.
pub(crate) fn bridges_left(board: &Board, events: &[Event]) -> u64
    requires { IsRunning board.now (history_of events.now) }
    ensures value { result ≡
        total (bridge_left board.now (history_of events.now)) board.now.bridges }
    ensures fits { result ≤ 20000000 * most_bridges }
{
    let mut left = 0;
    for bridge in board.bridges.as_slice() {
        left += bridge_left(board, events, bridge.bus);
    }
    left
}

/// The same of the bridge to the bus.
fn bridge_left(board: &Board, events: &[Event], bus: u8) -> u64
    requires { IsRunning board.now (history_of events.now) }
    ensures value { result ≡
        lane_left board.now (history_of events.now) (record { bus = bus; up = false }) +
        lane_left board.now (history_of events.now) (record { bus = bus; up = true }) }
    ensures fits { result ≤ 20000000 }
{
    let down = Lane { bus, up: false };
    let up = Lane { bus, up: true };
    lane_left(board, events, down) + lane_left(board, events, up)
}

fn lane_left(board: &Board, events: &[Event], lane: Lane) -> u64
    requires { IsRunning board.now (history_of events.now) }
    ensures value { result ≡ lane_left board.now (history_of events.now) lane }
    ensures fits { result ≤ 10000000 }
{
    let lanes = lanes_after_events(board, events, lane.bus);
    tables_left(board, events, lane, lanes.lane(lane.up))
}

fn tables_left(board: &Board, events: &[Event], lane: Lane, tables: &LaneTables) -> u64
    requires running { IsRunning board.now (history_of events.now) }
    requires there { tables.now ≡ world_of board.now (history_of events.now) lane }
    ensures value { result ≡ lane_left board.now (history_of events.now) lane }
    ensures fits { result ≤ 10000000 }
{
    flight_left(board, events, lane, tables.flight())
        + stand_left(board, events, lane, tables.standing())
}

fn flight_left(board: &Board, events: &[Event], lane: Lane, items: &[Carried]) -> u64
    requires running { IsRunning board.now (history_of events.now) }
    requires few { length items.now ≤ most_in_flight }
    ensures value { result ≡ total (flying_left board.now (history_of events.now) lane) items.now }
    ensures fits { result ≤ 70000 * most_in_flight }
{
    let mut left = 0;
    for item in items {
        left += u64::from(flying_left(board, events, lane, *item));
    }
    left
}

/// What an item in flight has left: its arrival, and that of its credit, beside what it has when
/// it stands.
fn flying_left(board: &Board, events: &[Event], lane: Lane, item: Carried) -> u32
    requires { IsRunning board.now (history_of events.now) }
    ensures value { result ≡ flying_left board.now (history_of events.now) lane item }
    ensures fits { result ≤ 70000 }
{
    match item {
        Carried::Post { op } => post_left(board, events, lane, op) + 2,
        Carried::Room => 1,
        Carried::Ask { .. } | Carried::Done { .. } | Carried::Gone { .. } => 0,
    }
}

fn stand_left(board: &Board, events: &[Event], lane: Lane, items: &[Carried]) -> u64
    requires running { IsRunning board.now (history_of events.now) }
    requires few { length items.now ≤ most_standing }
    ensures value { result ≡
        total (standing_left board.now (history_of events.now) lane) items.now }
    ensures fits { result ≤ 70000 * most_standing }
{
    let mut left = 0;
    for item in items {
        left += u64::from(standing_left(board, events, lane, *item));
    }
    left
}

/// What an item that stands has left.
fn standing_left(board: &Board, events: &[Event], lane: Lane, item: Carried) -> u32
    requires { IsRunning board.now (history_of events.now) }
    ensures value { result ≡ standing_left board.now (history_of events.now) lane item }
    ensures fits { result ≤ 70000 }
{
    match item {
        Carried::Post { op } => post_left(board, events, lane, op) + 1,
        Carried::Ask { .. } | Carried::Done { .. } | Carried::Room | Carried::Gone { .. } => 0,
    }
}

/// What a posted write that a lane carries has left from the bus on where the lane ends.
fn post_left(board: &Board, events: &[Event], lane: Lane, op: OpId) -> u32
    requires { IsRunning board.now (history_of events.now) }
    ensures value { result ≡
        post_left board.now (history_of events.now) lane op (op_of board.now op) }
    ensures fits { result ≤ 66300 }
{
    match op_of(board, op) {
        None => 0,
        Some(found) => posted_left(board, end_of(board, lane), found, through(events, op)),
    }
}

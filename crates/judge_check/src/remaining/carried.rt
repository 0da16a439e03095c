ghost use Rattle.std.specs.Prelude.{◌≡◌, ◌+◌, ◌*◌, ◌≤◌, length, true, false};
ghost use Rattle.list_facts.specs.Lists.{total};
ghost use Rattle.board_model.specs.Requests.{op_of};
ghost use Rattle.judge_state.specs.State.{lane_in};
ghost use Rattle.judge_check.specs.remaining.Now.{posted_now, post_now, flying_now};
ghost use Rattle.judge_check.specs.remaining.Now.{standing_now, lane_now, bridge_now};
ghost use Rattle.judge_check.specs.remaining.Running.{IsRunning};
ghost use Rattle.board_model.specs.Limits.{most_bridges, most_in_flight, most_standing};

use board_model::{Board, Lane, Op, end_of, op_of};
use history_model::Carried;
use judge_lanes::{LaneTables, posted_left};
use judge_state::Kept;
use pci_command::OpId;

/// What posted writes and credits on the lanes of all bridges have left.
pub(crate) fn bridges_left(kept: &Kept, board: &Board) -> u64
    requires { IsRunning board.now kept.now }
    ensures value { result ≡ total (bridge_now board.now kept.now) board.now.bridges }
    ensures fits { result ≤ 20000000 * most_bridges }
{
    let mut left = 0;
    for bridge in board.bridges.as_slice() {
        left += bridge_left(kept, board, bridge.bus);
    }
    left
}

/// The same of the bridge to the bus.
fn bridge_left(kept: &Kept, board: &Board, bus: u8) -> u64
    requires { IsRunning board.now kept.now }
    ensures value { result ≡ lane_now board.now kept.now (record { bus = bus; up = false }) +
        lane_now board.now kept.now (record { bus = bus; up = true }) }
    ensures fits { result ≤ 20000000 }
{
    let down = Lane { bus, up: false };
    let up = Lane { bus, up: true };
    lane_left(kept, board, down) + lane_left(kept, board, up)
}

fn lane_left(kept: &Kept, board: &Board, lane: Lane) -> u64
    requires { IsRunning board.now kept.now }
    ensures value { result ≡ lane_now board.now kept.now lane }
    ensures fits { result ≤ 10000000 }
{
    match kept.lanes_to(board, lane.bus) {
        Some(lanes) => tables_left(kept, board, lane, lanes.lane(lane.up)),
        None => 0,
    }
}

fn tables_left(kept: &Kept, board: &Board, lane: Lane, tables: &LaneTables) -> u64
    requires running { IsRunning board.now kept.now }
    requires there { tables.now ≡ lane_in board.now kept.now.lanes lane }
    ensures value { result ≡ lane_now board.now kept.now lane }
    ensures fits { result ≤ 10000000 }
{
    flight_left(kept, board, lane, tables.flight())
        + stand_left(kept, board, lane, tables.standing())
}

fn flight_left(kept: &Kept, board: &Board, lane: Lane, items: &[Carried]) -> u64
    requires running { IsRunning board.now kept.now }
    requires few { length items.now ≤ most_in_flight }
    ensures value { result ≡ total (flying_now board.now kept.now lane) items.now }
    ensures fits { result ≤ 70000 * most_in_flight }
{
    let mut left = 0;
    for item in items {
        left += u64::from(flying_left(kept, board, lane, *item));
    }
    left
}

/// What an item in flight has left: its arrival, and that of its credit, beside what it has when
/// it stands.
fn flying_left(kept: &Kept, board: &Board, lane: Lane, item: Carried) -> u32
    requires { IsRunning board.now kept.now }
    ensures value { result ≡ flying_now board.now kept.now lane item }
    ensures fits { result ≤ 70000 }
{
    match item {
        Carried::Post { op } => post_left(kept, board, lane, op) + 2,
        Carried::Room => 1,
        Carried::Ask { .. } | Carried::Done { .. } | Carried::Gone { .. } => 0,
    }
}

fn stand_left(kept: &Kept, board: &Board, lane: Lane, items: &[Carried]) -> u64
    requires running { IsRunning board.now kept.now }
    requires few { length items.now ≤ most_standing }
    ensures value { result ≡ total (standing_now board.now kept.now lane) items.now }
    ensures fits { result ≤ 70000 * most_standing }
{
    let mut left = 0;
    for item in items {
        left += u64::from(standing_left(kept, board, lane, *item));
    }
    left
}

/// What an item that stands has left.
fn standing_left(kept: &Kept, board: &Board, lane: Lane, item: Carried) -> u32
    requires { IsRunning board.now kept.now }
    ensures value { result ≡ standing_now board.now kept.now lane item }
    ensures fits { result ≤ 70000 }
{
    match item {
        Carried::Post { op } => post_left(kept, board, lane, op) + 1,
        Carried::Ask { .. } | Carried::Done { .. } | Carried::Room | Carried::Gone { .. } => 0,
    }
}

/// What a posted write that a lane carries has left from the bus on where the lane ends.
fn post_left(kept: &Kept, board: &Board, lane: Lane, op: OpId) -> u32
    requires { IsRunning board.now kept.now }
    ensures value { result ≡ post_now board.now kept.now lane op (op_of board.now op) }
    ensures fits { result ≤ 66300 }
{
    match op_of(board, op) {
        None => 0,
        Some(found) => posted(kept, board, end_of(board, lane), op, found),
    }
}

/// What a posted write has left from the bus on.
pub(crate) fn posted(kept: &Kept, board: &Board, on: u8, op: OpId, found: &Op) -> u32
    requires { IsRunning board.now kept.now }
    ensures value { result ≡ posted_now board.now kept.now on op found.now }
    ensures fits { result ≤ 66300 }
{
    posted_left(board, on, found, u128::from(kept.through(op)))
}

ghost use Rattle.std.specs.Prelude.{◌≡◌, ◌+◌, ◌*◌, ◌-◌, ◌^◌, ◌≤◌};
ghost use Rattle.list_facts.specs.Lists.{total};
ghost use Rattle.board_model.specs.Ways.{longest_way};
ghost use Rattle.history_model.specs.World.{world_of};
ghost use Rattle.history_model.specs.Answers.{stalls_used};
ghost use Rattle.history_model.specs.Runs.{history_of};
ghost use Rattle.history_model.specs.Left.{stalls_left, discard_left, drop_left};
ghost use Rattle.judge_lanes.specs.Running.{IsRunning};
ghost use Rattle.board_model.specs.Limits.{most_plans};

use crate::lanes::lanes_after_events;
use crate::words::stalls_used;
use board_model::{Board, Planned, Target};
use board_tree::longest_way;
use history_model::Event;

/// The stall tokens that are not used yet.
pub(crate) fn stalls_left(board: &Board, events: &[Event]) -> u64
    requires { IsRunning board.now (history_of events.now) }
    ensures value { result ≡ stalls_left (history_of events.now) 0 board.now.targets }
    ensures fits { result ≤ 2 ^ 40 }
{
    let mut left = 0;
    for (index, target) in board.targets.as_slice().iter().enumerate() {
        left += u64::from(target_left(events, index as u16, target));
    }
    left
}

fn target_left(events: &[Event], index: u16, target: &Target) -> u32
    ensures { result ≡ target.now.stalls - stalls_used (history_of events.now) index }
{
    tokens_left(target.stalls, stalls_used(events, index))
}

fn tokens_left(tokens: u32, used: u64) -> u32
    ensures { result ≡ tokens - used }
{
    if used < u64::from(tokens) {
        tokens - used as u32
    } else {
        0
    }
}

/// What discards have left: after each an operation goes its way once more.
pub(crate) fn discards_left(board: &Board, events: &[Event]) -> u64
    requires { IsRunning board.now (history_of events.now) }
    ensures value { result ≡ total (discard_left board.now
        (world_of board.now (history_of events.now))) board.now.discards }
    ensures fits { result ≤ 1020 * most_plans }
{
    let longest = longest_way(board, board.masters.as_slice());
    let mut left = 0;
    for planned in board.discards.as_slice() {
        left += u64::from(discard_left(board, events, longest, *planned));
    }
    left
}

/// Of a discard of a completion that did not come yet.
fn discard_left(board: &Board, events: &[Event], longest: u8, planned: Planned) -> u32
    requires running { IsRunning board.now (history_of events.now) }
    requires longest { longest ≡ longest_way board.now }
    ensures value { result ≡
        discard_left board.now (world_of board.now (history_of events.now)) planned }
    ensures fits { result ≤ 1020 }
{
    if dones_on(board, events, planned) < u64::from(planned.count) {
        4 * u32::from(longest)
    } else {
        0
    }
}

/// How many completions came on the lane of a line.
fn dones_on(board: &Board, events: &[Event], planned: Planned) -> u64
    requires { IsRunning board.now (history_of events.now) }
    ensures { result ≡ (world_of board.now (history_of events.now)
        (record { bus = planned.bus; up = planned.up })).dones }
{
    let lanes = lanes_after_events(board, events, planned.bus);
    lanes.lane(planned.up).dones()
}

/// What drops have left.
pub(crate) fn drops_left(board: &Board, events: &[Event]) -> u64
    requires { IsRunning board.now (history_of events.now) }
    ensures value { result ≡
        total (drop_left (world_of board.now (history_of events.now))) board.now.drops }
    ensures fits { result ≤ 3 * most_plans }
{
    let mut left = 0;
    for planned in board.drops.as_slice() {
        left += u64::from(drop_left(board, events, *planned));
    }
    left
}

/// Of a drop of a request that did not come yet.
fn drop_left(board: &Board, events: &[Event], planned: Planned) -> u8
    requires { IsRunning board.now (history_of events.now) }
    ensures value { result ≡ drop_left (world_of board.now (history_of events.now)) planned }
    ensures fits { result ≤ 3 }
{
    if asks_on(board, events, planned) < u64::from(planned.count) {
        3
    } else {
        0
    }
}

/// How many delayed requests came on the lane of a line.
fn asks_on(board: &Board, events: &[Event], planned: Planned) -> u64
    requires { IsRunning board.now (history_of events.now) }
    ensures { result ≡ (world_of board.now (history_of events.now)
        (record { bus = planned.bus; up = planned.up })).asks }
{
    let lanes = lanes_after_events(board, events, planned.bus);
    lanes.lane(planned.up).asks()
}

ghost use Rattle.std.specs.Prelude.{◌≡◌, ◌*◌, ◌^◌, ◌≤◌};
ghost use Rattle.list_facts.specs.Lists.{total};
ghost use Rattle.board_model.specs.Ways.{longest_way};
ghost use Rattle.history_model.specs.Left.{discard_left, drop_left};
ghost use Rattle.judge_state.specs.State.{lane_in};
ghost use Rattle.judge_check.specs.remaining.Now.{world_now, stalls_now};
ghost use Rattle.judge_check.specs.remaining.Running.{IsRunning};
ghost use Rattle.board_model.specs.Limits.{most_plans};

use board_model::{Board, Planned};
use board_tree::longest_way;
use judge_state::Kept;

/// The stall tokens that are not used yet.
pub(crate) fn stalls_left(kept: &Kept, board: &Board) -> u64
    requires { IsRunning board.now kept.now }
    ensures value { result ≡ stalls_now kept.now 0 board.now.targets }
    ensures fits { result ≤ 2 ^ 40 }
{
    let mut left = 0;
    for (index, _) in board.targets.as_slice().iter().enumerate() {
        left += u64::from(kept.tokens(index as u16));
    }
    left
}

/// What discards have left: after each an operation goes its way once more.
pub(crate) fn discards_left(kept: &Kept, board: &Board) -> u64
    requires { IsRunning board.now kept.now }
    ensures value { result ≡
        total (discard_left board.now (world_now board.now kept.now)) board.now.discards }
    ensures fits { result ≤ 1020 * most_plans }
{
    let longest = longest_way(board, board.masters.as_slice());
    let mut left = 0;
    for planned in board.discards.as_slice() {
        left += u64::from(discard_left(kept, board, longest, *planned));
    }
    left
}

/// Of a discard of a completion that did not come yet.
fn discard_left(kept: &Kept, board: &Board, longest: u8, planned: Planned) -> u32
    requires { longest ≡ longest_way board.now }
    ensures value { result ≡ discard_left board.now (world_now board.now kept.now) planned }
    ensures fits { result ≤ 1020 }
{
    if dones_on(kept, board, planned) < u64::from(planned.count) {
        4 * u32::from(longest)
    } else {
        0
    }
}

/// How many completions came on the lane of a line.
fn dones_on(kept: &Kept, board: &Board, planned: Planned) -> u64
    ensures { result ≡ (lane_in board.now kept.now.lanes (record {
      bus = planned.bus;
      up = planned.up;
    })).dones }
{
    match kept.lanes_to(board, planned.bus) {
        Some(lanes) => lanes.lane(planned.up).dones(),
        None => 0,
    }
}

/// What drops have left.
pub(crate) fn drops_left(kept: &Kept, board: &Board) -> u64
    requires { IsRunning board.now kept.now }
    ensures value { result ≡ total (drop_left (world_now board.now kept.now)) board.now.drops }
    ensures fits { result ≤ 3 * most_plans }
{
    let mut left = 0;
    for planned in board.drops.as_slice() {
        left += u64::from(drop_left(kept, board, *planned));
    }
    left
}

/// Of a drop of a request that did not come yet.
fn drop_left(kept: &Kept, board: &Board, planned: Planned) -> u8
    ensures value { result ≡ drop_left (world_now board.now kept.now) planned }
    ensures fits { result ≤ 3 }
{
    if asks_on(kept, board, planned) < u64::from(planned.count) {
        3
    } else {
        0
    }
}

/// How many delayed requests came on the lane of a line.
fn asks_on(kept: &Kept, board: &Board, planned: Planned) -> u64
    ensures { result ≡ (lane_in board.now kept.now.lanes (record {
      bus = planned.bus;
      up = planned.up;
    })).asks }
{
    match kept.lanes_to(board, planned.bus) {
        Some(lanes) => lanes.lane(planned.up).asks(),
        None => 0,
    }
}

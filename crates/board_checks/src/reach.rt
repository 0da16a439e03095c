ghost use Rattle.std.specs.Prelude.{◌≡◌, not};
ghost use Rattle.std.specs.List.{list_any, list_all};
ghost use Rattle.board_model.specs.Valid.{window_covers, bridge_covers, own_covers, is_reached};
ghost use Rattle.board_model.specs.Valid.{window_is_reached, last_of, ranges_are_reached};
ghost use Rattle.board_model.specs.Valid.{windows_are_reached, is_out_of_reach};

use crate::spans::last_of;
use board_model::{Board, Bridge, Target, Window, bridge_to};
use pci_command::Space;

/// V4: whether a range or a window behind a bridge lies in no one window of that bridge.
pub(crate) fn is_out_of_reach(board: &Board) -> bool
    ensures { result ≡ is_out_of_reach board.now }
{
    some_range_is_out_of_reach(board) || some_window_is_out_of_reach(board)
}

fn some_range_is_out_of_reach(board: &Board) -> bool
    ensures { result ≡
        list_any (λ target. not (ranges_are_reached board.now target)) board.now.targets }
{
    board
        .targets
        .as_slice()
        .iter()
        .any(|target| !ranges_are_reached(board, target))
}

fn some_window_is_out_of_reach(board: &Board) -> bool
    ensures { result ≡
        list_any (λ bridge. not (windows_are_reached board.now bridge)) board.now.bridges }
{
    board
        .bridges
        .as_slice()
        .iter()
        .any(|bridge| !windows_are_reached(board, bridge))
}

fn ranges_are_reached(board: &Board, target: &Target) -> bool
    ensures { result ≡ ranges_are_reached board.now target.now }
{
    target.ranges.as_slice().iter().all(|range| is_reached(
        board,
        target.bus,
        range.space,
        range.base,
        last_of(range),
    ))
}

fn windows_are_reached(board: &Board, bridge: &Bridge) -> bool
    ensures { result ≡ windows_are_reached board.now bridge.now }
{
    window_is_reached(board, bridge.parent, Space::Mem, bridge.mem)
        && window_is_reached(board, bridge.parent, Space::Mem, bridge.pref)
        && window_is_reached(board, bridge.parent, Space::Io, bridge.io)
}

fn window_is_reached(board: &Board, bus: u8, space: Space, window: Option<Window>) -> bool
    ensures { result ≡ window_is_reached board.now bus space window }
{
    match window {
        None => true,
        Some(window) => is_reached(board, bus, space, window.base, u128::from(window.limit)),
    }
}

/// Whether the addresses from `base` to `limit` lie in one window of the bridge above the bus, if
/// there is one.
fn is_reached(board: &Board, bus: u8, space: Space, base: u64, limit: u128) -> bool
    ensures { result ≡ is_reached board.now bus space base limit }
{
    match bridge_to(board, bus) {
        None => true,
        Some(own) => bridge_covers(space, base, limit, own),
    }
}

fn bridge_covers(space: Space, base: u64, limit: u128, bridge: &Bridge) -> bool
    ensures { result ≡ bridge_covers space base limit bridge.now }
{
    match space {
        Space::Mem => {
            window_covers(base, limit, bridge.mem) || window_covers(base, limit, bridge.pref)
        }
        Space::Io => window_covers(base, limit, bridge.io),
        Space::Cfg => false,
    }
}

fn window_covers(base: u64, limit: u128, window: Option<Window>) -> bool
    ensures { result ≡ window_covers base limit window }
{
    match window {
        None => false,
        Some(window) => window.base <= base && limit <= u128::from(window.limit),
    }
}

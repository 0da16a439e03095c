//! What spans of addresses have in common.
ghost use Rattle.std.specs.Prelude.{◌≡◌};
ghost use Rattle.board_model.specs.Valid.{spans_meet, window_meets, window_covers, bridge_covers};
ghost use Rattle.board_model.specs.Valid.{own_covers, is_reached, last_of};
ghost use Rattle.import_board.specs.Machine.{meets_window, passes_some, meets_range};

use board_model::{Board, Bridge, Range, Window, bridge_to};
use pci_command::Space;

fn window_covers(window: Window, outer: Option<Window>) -> bool
    ensures { result ≡ window_covers window.base window.limit outer }
{
    match outer {
        Some(outer) => outer.base <= window.base && window.limit <= outer.limit,
        None => false,
    }
}

fn bridge_covers(space: Space, window: Window, bridge: &Bridge) -> bool
    ensures { result ≡ bridge_covers space window.base window.limit bridge.now }
{
    match space {
        Space::Mem => window_covers(window, bridge.mem) || window_covers(window, bridge.pref),
        Space::Io => window_covers(window, bridge.io),
        Space::Cfg => false,
    }
}

/// Whether all of the window lies in one window of the bridge above the bus, if there is one.
pub(crate) fn is_reached(board: &Board, bus: u8, space: Space, window: Window) -> bool
    ensures { result ≡ is_reached board.now bus space window.base window.limit }
{
    match bridge_to(board, bus) {
        None => true,
        Some(own) => bridge_covers(space, window, own),
    }
}

fn window_meets(window: Window, other: Option<Window>) -> bool
    ensures { result ≡ window_meets other window.base window.limit }
{
    match other {
        Some(other) => other.base <= window.limit && window.base <= other.limit,
        None => false,
    }
}

fn meets_window(space: Space, window: Window, bridge: &Bridge) -> bool
    ensures { result ≡ meets_window space window bridge.now }
{
    match space {
        Space::Mem => window_meets(window, bridge.mem) || window_meets(window, bridge.pref),
        Space::Io => window_meets(window, bridge.io),
        Space::Cfg => false,
    }
}

/// Whether a bridge is on the bus and passes some of the window.
pub(crate) fn passes_some(bus: u8, space: Space, window: Window, bridge: &Bridge) -> bool
    ensures { result ≡ passes_some bus space window bridge.now }
{
    bridge.parent == bus && meets_window(space, window, bridge)
}

/// Whether the range is for the space, and shares an address with the span.
pub(crate) fn meets_range(space: Space, span: Window, range: &Range) -> bool
    ensures { result ≡ meets_range space span range.now }
{
    let more = range.size.saturating_sub(1);
    let last = u128::from(range.base) + u128::from(more);
    range.space == space && u128::from(span.base) <= last && range.base <= span.limit
}

//! Bridges: each of the board is that of a function, and each function's is on the board, or has no
//! place there.
ghost use Rattle.std.specs.Prelude.{◌≡◌, ◌==◌, ◌&&◌, not, if◌then◌else◌};
ghost use Rattle.std.specs.Option.{option_copied};
ghost use Rattle.std.specs.List.{list_all, list_any};
ghost use Rattle.board_model.specs.WellFormed.{children_on};
ghost use Rattle.board_headers.specs.Windows.{windows_of};
ghost use Rattle.import_board.specs.Machine.{decoded, is_window_barred, is_window_told};
ghost use Rattle.import_board.specs.Machine.{has_numbers, has_windows, is_bridge_by};
ghost use Rattle.import_board.specs.Machine.{is_bridge_told, shares_buses, passes_some};
ghost use Rattle.import_board.specs.Machine.{passes_above, are_buses_barred, is_full};
ghost use Rattle.import_board.specs.Machine.{is_bridge_kept};

use crate::holds::buses::{has_no_number, is_bridge_of, place_of};
use crate::holds::spans::{is_reached, passes_some};
use board_headers::Windows;
use board_model::{Board, Bridge, MOST_BRIDGES, MOST_CHILDREN, Window, bridge_to, is_bus};
use import_bridges::{Root, decodes, windows_of};
use import_text::Function;
use pci_command::Space;

/// Whether each bridge of the board is that of a function.
pub(crate) fn bridges_are_told(root: Root, functions: &[Function], board: &Board) -> bool
    ensures { result ≡ list_all (is_bridge_told root functions.now board.now) board.now.bridges }
{
    let bridges = board.bridges.as_slice();
    bridges
        .iter()
        .all(|bridge| is_bridge_told(root, functions, board, bridge))
}

/// Whether each function that is a bridge has one on the board, or no place there.
pub(crate) fn bridges_are_kept(root: Root, functions: &[Function], board: &Board) -> bool
    ensures { result ≡ list_all (is_bridge_kept root functions.now board.now) functions.now }
{
    functions.iter().all(|function| is_bridge_kept(root, functions, board, function))
}

fn is_bridge_told(root: Root, functions: &[Function], board: &Board, bridge: &Bridge) -> bool
    ensures { result ≡ is_bridge_told root functions.now board.now bridge.now }
{
    functions
        .iter()
        .any(|function| is_bridge_by(root, board, bridge, function))
}

fn is_bridge_by(root: Root, board: &Board, bridge: &Bridge, function: &Function) -> bool
    ensures { result ≡ is_bridge_by root board.now bridge.now function.now }
{
    if !is_bridge_of(root, function) || place_of(root, function) != bridge.parent {
        return false;
    }
    let windows = windows_of(function.header.as_slice());
    has_numbers(&windows, bridge) && has_windows(&windows, board, function, bridge)
}

fn has_numbers(windows: &Windows, bridge: &Bridge) -> bool
    ensures { result ≡ has_numbers windows.now bridge.now }
{
    windows.secondary == bridge.bus
        && windows.subordinate == bridge.last
        && has_mode(bridge.mode, windows.mode)
}

fn has_mode(mode: bool, told: bool) -> bool
    ensures { result ≡ (if mode then told else not told) }
{
    if mode { told } else { !told }
}

fn has_windows(windows: &Windows, board: &Board, function: &Function, bridge: &Bridge) -> bool
    ensures { result ≡ has_windows windows.now board.now function.now bridge.now }
{
    let in_memory = decodes(Space::Mem, function);
    let in_ports = decodes(Space::Io, function);
    let mem = decoded(0xf_ffff, in_memory, windows.mem);
    let pref = decoded(0xf_ffff, in_memory, windows.pref);
    let io = decoded(0xfff, in_ports, windows.io);
    is_window_told(board, bridge, Space::Mem, bridge.mem, mem)
        && is_window_told(board, bridge, Space::Mem, bridge.pref, pref)
        && is_window_told(board, bridge, Space::Io, bridge.io, io)
}

/// The window of a header, if it is decoded and its registers are not zero.
fn decoded(zero_limit: u64, is_on: bool, window: Option<Window>) -> Option<Window>
    ensures { result ≡ decoded zero_limit is_on window }
{
    match window {
        Some(window) if is_on && window.limit != zero_limit => Some(window),
        _ => None,
    }
}

fn is_window_told(
    board: &Board,
    bridge: &Bridge,
    space: Space,
    window: Option<Window>,
    told: Option<Window>,
) -> bool
    ensures { result ≡ is_window_told board.now bridge.now space window told }
{
    match (window, told) {
        (Some(window), Some(told)) => window.base == told.base && window.limit == told.limit,
        (Some(_), None) => false,
        (None, Some(told)) => is_window_barred(board, bridge, space, told),
        (None, None) => true,
    }
}

fn is_window_barred(board: &Board, bridge: &Bridge, space: Space, window: Window) -> bool
    ensures { result ≡ is_window_barred board.now bridge.now space window }
{
    !is_reached(board, bridge.parent, space, window) || another_meets(board, bridge, space, window)
}

fn another_meets(board: &Board, bridge: &Bridge, space: Space, window: Window) -> bool
    ensures { result ≡ list_any (λ other. not (other.bus == bridge.now.bus) &&
        passes_some bridge.now.parent space window other) board.now.bridges }
{
    let bridges = board.bridges.as_slice();
    bridges.iter().any(|other| {
        other.bus != bridge.bus && passes_some(bridge.parent, space, window, other)
    })
}

fn is_bridge_kept(root: Root, functions: &[Function], board: &Board, function: &Function) -> bool
    ensures { result ≡ is_bridge_kept root functions.now board.now function.now }
{
    !is_bridge_of(root, function)
        || has_bridge(root, board, function)
        || are_buses_barred(root, board, function)
        || is_full(board, place_of(root, function))
        || has_no_number(root, functions, board, function)
}

fn has_bridge(root: Root, board: &Board, function: &Function) -> bool
    ensures { result ≡
        list_any (λ bridge. is_bridge_by root board.now bridge function.now) board.now.bridges }
{
    let bridges = board.bridges.as_slice();
    bridges
        .iter()
        .any(|bridge| is_bridge_by(root, board, bridge, function))
}

fn are_buses_barred(root: Root, board: &Board, function: &Function) -> bool
    ensures { result ≡
        are_buses_barred (windows_of function.now.header) root board.now function.now }
{
    let windows = windows_of(function.header.as_slice());
    let bus = place_of(root, function);
    let (first, last) = (windows.secondary, windows.subordinate);
    !is_bus(board, bus)
        || !(function.slot.bus < first && first <= last)
        || passes_above(last, bridge_to(board, bus))
        || some_share_buses(board, bus, first, last)
}

fn passes_above(last: u8, above: Option<&Bridge>) -> bool
    ensures { result ≡ passes_above last (option_copied above.entry) }
{
    match above {
        Some(above) => above.last < last,
        None => false,
    }
}

fn some_share_buses(board: &Board, bus: u8, first: u8, last: u8) -> bool
    ensures { result ≡ list_any (shares_buses bus first last) board.now.bridges }
{
    let bridges = board.bridges.as_slice();
    bridges.iter().any(|bridge| bridge.parent == bus && bridge.bus <= last && first <= bridge.last)
}

#[tactic(auto, unfolding(crate::specs::Machine::is_full))]
fn is_full(board: &Board, bus: u8) -> bool
    ensures { result ≡ is_full board.now bus }
{
    let bridges = board.bridges.as_slice();
    children_on(board, bus) >= MOST_CHILDREN || bridges.len() >= MOST_BRIDGES
}

fn children_on(board: &Board, bus: u8) -> usize
    ensures { result ≡ children_on board.now bus }
{
    let bridges = board.bridges.as_slice();
    bridges.iter().filter(|bridge| bridge.parent == bus).count()
}

//! Buses of the board, and the device numbers on them.
ghost use Rattle.std.specs.Prelude.{◌≡◌, ◌&&◌, ◌==◌};
ghost use Rattle.std.specs.List.{list_any};
ghost use Rattle.import_board.specs.Machine.{is_bridge_of, is_device_of, bus_on_board, place_of};
ghost use Rattle.import_board.specs.Machine.{is_in_text, is_given, is_used, all_below};
ghost use Rattle.import_board.specs.Machine.{has_no_number};

use board_model::Board;
use import_bridges::{Root, is_bridge};
use import_text::Function;

/// Whether the function is a bridge of the root's domain.
pub(crate) fn is_bridge_of(root: Root, function: &Function) -> bool
    ensures { result ≡ is_bridge_of root function.now }
{
    function.slot.domain == root.domain && is_bridge(function)
}

/// Whether the function is of a device of the root's domain.
pub(crate) fn is_device_of(root: Root, function: &Function) -> bool
    ensures { result ≡ is_device_of root function.now }
{
    function.slot.domain == root.domain && !is_bridge(function)
}

/// The bus of the board that the function is on.
pub(crate) fn place_of(root: Root, function: &Function) -> u8
    ensures { result ≡ place_of root function.now }
{
    if function.slot.bus == root.bus {
        0
    } else {
        function.slot.bus
    }
}

fn is_in_text(root: Root, functions: &[Function], bus: u8, device: u8) -> bool
    ensures { result ≡ is_in_text root functions.now bus device }
{
    functions.iter().any(|other| {
        other.slot.domain == root.domain && other.slot.bus == bus && other.slot.device == device
    })
}

fn a_bridge_has(board: &Board, bus: u8, device: u8) -> bool
    ensures { result ≡ list_any (λ bridge. bridge.parent == bus && bridge.device == device)
        board.now.bridges }
{
    let bridges = board.bridges.as_slice();
    bridges
        .iter()
        .any(|bridge| bridge.parent == bus && bridge.device == device)
}

fn a_target_has(board: &Board, bus: u8, device: u8) -> bool
    ensures { result ≡ list_any (λ target. target.bus == bus && target.device == device)
        board.now.targets }
{
    let targets = board.targets.as_slice();
    targets
        .iter()
        .any(|target| target.bus == bus && target.device == device)
}

fn is_given(board: &Board, bus: u8, device: u8) -> bool
    ensures { result ≡ is_given board.now bus device }
{
    a_bridge_has(board, bus, device) || a_target_has(board, bus, device)
}

fn is_used(
    root: Root,
    functions: &[Function],
    board: &Board,
    function: &Function,
    device: u8,
) -> bool
    ensures { result ≡ is_used root functions.now board.now function.now device }
{
    is_in_text(root, functions, function.slot.bus, device)
        || is_given(board, place_of(root, function), device)
}

fn all_used(
    root: Root,
    functions: &[Function],
    board: &Board,
    function: &Function,
    below: u8,
) -> bool
    ensures { result ≡
        all_below (is_used root functions.now board.now function.now) below }
{
    if below == 0 {
        return true;
    }
    let device = below - 1;
    is_used(root, functions, board, function, device)
        && all_used(root, functions, board, function, device)
}

/// Whether the board gave the device number of the function to another, and none is free.
pub(crate) fn has_no_number(
    root: Root,
    functions: &[Function],
    board: &Board,
    function: &Function,
) -> bool
    ensures { result ≡ has_no_number root functions.now board.now function.now }
{
    is_given(board, place_of(root, function), function.slot.device)
        && all_used(root, functions, board, function, 32) // not a limit
}

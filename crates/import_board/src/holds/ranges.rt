//! Ranges: each that a device asks for is on the board, or has no place there.
ghost use Rattle.std.specs.Prelude.{◌≡◌, ◌==◌, count_by};
ghost use Rattle.std.specs.List.{list_all, list_any};
ghost use Rattle.import_targets.specs.Registers.{found_in};
ghost use Rattle.import_targets.specs.Ranges.{span_of};
ghost use Rattle.import_board.specs.Machine.{passes_some, claims_some, is_span_barred};
ghost use Rattle.import_board.specs.Machine.{has_no_room, meets_range, has_all_targets};
ghost use Rattle.import_board.specs.Machine.{has_no_target, has_range};
ghost use Rattle.import_board.specs.Machine.{is_asked_by, is_of_target, is_range_kept};
ghost use Rattle.import_board.specs.Machine.{are_ranges_kept};

use crate::holds::buses::{has_no_number, is_device_of, place_of};
use crate::holds::spans::{is_reached, meets_range, passes_some};
use crate::holds::targets::{asks, is_asked_by, is_of_target};
use board_model::{Board, Target, Window, is_bus, registers_fit};
use import_bridges::Root;
use import_targets::{FoundFunction, found_in, registers_for, span_of};
use import_text::Function;
use pci_command::Space;

/// Whether each range that a device on a bus of the board asks for is there, or has no place there.
pub(crate) fn ranges_are_kept(root: Root, functions: &[Function], board: &Board) -> bool
    ensures { result ≡ list_all (are_ranges_kept root functions.now board.now) functions.now }
{
    functions.iter().all(|function| are_ranges_kept(root, functions, board, function))
}

fn are_ranges_kept(root: Root, functions: &[Function], board: &Board, function: &Function) -> bool
    ensures { result ≡ are_ranges_kept root functions.now board.now function.now }
{
    !(is_device_of(root, function) && is_bus(board, place_of(root, function)))
        || registers_are_kept(root, functions, board, function)
}

fn registers_are_kept(
    root: Root,
    functions: &[Function],
    board: &Board,
    function: &Function,
) -> bool
    ensures { result ≡ list_all (is_range_kept root functions.now board.now function.now)
        (found_in function.now) }
{
    let found = found_in(function);
    let registers = found.as_slice();
    registers
        .iter()
        .all(|one| is_range_kept(root, functions, board, function, one))
}

fn is_range_kept(
    root: Root,
    functions: &[Function],
    board: &Board,
    function: &Function,
    found: &FoundFunction,
) -> bool
    ensures { result ≡ is_range_kept root functions.now board.now function.now found.now }
{
    if !asks(function, found) {
        return true;
    }
    let span = span_of(found);
    some_has_range(root, board, function, found)
        || is_span_barred(board, place_of(root, function), found.space, span)
        || some_has_no_room(root, board, function, span)
        || has_no_target(root, functions, board, function)
}

fn some_has_range(root: Root, board: &Board, function: &Function, found: &FoundFunction) -> bool
    ensures { result ≡ list_any (has_range root function.now found.now) board.now.targets }
{
    let targets = board.targets.as_slice();
    targets
        .iter()
        .any(|target| has_range(root, function, found, target))
}

fn has_range(root: Root, function: &Function, found: &FoundFunction, target: &Target) -> bool
    ensures { result ≡ has_range root function.now found.now target.now }
{
    is_of_target(root, target, function) && is_one_asked(target, function, found)
}

fn is_one_asked(target: &Target, function: &Function, found: &FoundFunction) -> bool
    ensures { result ≡
        list_any (λ range. is_asked_by range function.now found.now) target.now.ranges }
{
    let ranges = target.ranges.as_slice();
    ranges
        .iter()
        .any(|range| is_asked_by(range, function, found))
}

fn is_span_barred(board: &Board, bus: u8, space: Space, span: Window) -> bool
    ensures { result ≡ is_span_barred board.now bus space span }
{
    !is_reached(board, bus, space, span)
        || a_bridge_passes_some(board, bus, space, span)
        || a_target_claims_some(board, bus, space, span)
}

fn a_bridge_passes_some(board: &Board, bus: u8, space: Space, span: Window) -> bool
    ensures { result ≡ list_any (passes_some bus space span) board.now.bridges }
{
    let bridges = board.bridges.as_slice();
    bridges
        .iter()
        .any(|bridge| passes_some(bus, space, span, bridge))
}

fn a_target_claims_some(board: &Board, bus: u8, space: Space, span: Window) -> bool
    ensures { result ≡ list_any (claims_some bus space span) board.now.targets }
{
    let targets = board.targets.as_slice();
    targets
        .iter()
        .any(|target| claims_some(bus, space, span, target))
}

fn claims_some(bus: u8, space: Space, span: Window, target: &Target) -> bool
    ensures { result ≡ claims_some bus space span target.now }
{
    target.bus == bus && a_range_meets(space, span, target)
}

fn a_range_meets(space: Space, span: Window, target: &Target) -> bool
    ensures { result ≡ list_any (meets_range space span) target.now.ranges }
{
    let ranges = target.ranges.as_slice();
    ranges.iter().any(|range| meets_range(space, span, range))
}

fn some_has_no_room(root: Root, board: &Board, function: &Function, span: Window) -> bool
    ensures { result ≡ list_any (has_no_room root function.now span) board.now.targets }
{
    let targets = board.targets.as_slice();
    targets
        .iter()
        .any(|target| has_no_room(root, function, span, target))
}

fn has_no_room(root: Root, function: &Function, span: Window, target: &Target) -> bool
    ensures { result ≡ has_no_room root function.now span target.now }
{
    is_of_target(root, target, function)
        && !registers_fit(target.ranges.as_slice(), 6 - registers_for(span) as u8)
}

fn has_no_target(root: Root, functions: &[Function], board: &Board, function: &Function) -> bool
    ensures { result ≡ has_no_target root functions.now board.now function.now }
{
    !is_of_some_target(root, board, function)
        && (has_all_targets(board, place_of(root, function))
            || has_no_number(root, functions, board, function))
}

fn is_of_some_target(root: Root, board: &Board, function: &Function) -> bool
    ensures { result ≡ list_any (λ target. is_of_target root target function.now)
        board.now.targets }
{
    let targets = board.targets.as_slice();
    targets
        .iter()
        .any(|target| is_of_target(root, target, function))
}

#[tactic(auto, unfolding(crate::specs::Machine::has_all_targets))]
fn has_all_targets(board: &Board, bus: u8) -> bool
    ensures { result ≡ has_all_targets board.now bus }
{
    targets_on(board, bus) >= 6
}

fn targets_on(board: &Board, bus: u8) -> usize
    ensures { result ≡ count_by (λ target. target.bus == bus) board.now.targets }
{
    let targets = board.targets.as_slice();
    targets.iter().filter(|target| target.bus == bus).count()
}

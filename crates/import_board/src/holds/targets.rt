//! Targets: each is a device of the machine, and the device asks for each of its ranges.
ghost use Rattle.std.specs.Prelude.{◌≡◌, ◌<◌, ◌/◌, ◌%◌, false, IsTrue, IfOk};
ghost use Rattle.std.specs.Str.{bytes_eq};
ghost use Rattle.std.specs.Fmt.{digit_glyph};
ghost use Rattle.std.specs.List.{list_all, list_any};
ghost use Rattle.import_targets.specs.Registers.{found_in};
ghost use Rattle.import_targets.specs.Ranges.{does_fit};
ghost use Rattle.import_board.specs.Machine.{target_name, is_of_target, asks, is_asked_by};
ghost use Rattle.import_board.specs.Machine.{is_range_by, is_range_told, is_first, is_id_by};
ghost use Rattle.import_board.specs.Machine.{is_target_told};

use crate::holds::buses::{is_device_of, place_of};
use board_model::{Board, Range, Target};
use import_bridges::{Root, decodes, register_2};
use import_targets::{FoundFunction, does_fit, found_in, span_of};
use import_text::Function;

/// Whether each target of the board is told by functions of its device.
pub(crate) fn targets_are_told(root: Root, functions: &[Function], board: &Board) -> bool
    ensures { result ≡ list_all (is_target_told root functions.now) board.now.targets }
{
    let targets = board.targets.as_slice();
    targets
        .iter()
        .all(|target| is_target_told(root, functions, target))
}

/// Whether the function is of the device that the target is.
pub(crate) fn is_of_target(root: Root, target: &Target, function: &Function) -> bool
    ensures { result ≡ is_of_target root target.now function.now }
{
    is_device_of(root, function)
        && place_of(root, function) == target.bus
        && has_name(target, function.slot.bus, function.slot.device)
}

fn has_name(target: &Target, bus: u8, device: u8) -> bool
    ensures { result ≡ bytes_eq target.now.name (target_name bus device) }
{
    target.name.bytes() == target_name(bus, device).as_slice()
}

/// `dQQ-DD`
fn target_name(bus: u8, device: u8) -> [u8; 6]
    ensures { result ≡ target_name bus device }
{
    [
        b'd',
        digit(bus / 16),
        digit(bus % 16),
        b'-',
        digit(device / 16),
        digit(device % 16),
    ]
}

fn digit(number: u8) -> u8
    requires { number < 16 }
    ensures { result ≡ digit_glyph false number }
{
    if number < 10 {
        b'0' + number
    } else {
        b'a' + (number - 10)
    }
}

/// Whether the register asks for a range that a board can have.
pub(crate) fn asks(function: &Function, found: &FoundFunction) -> bool
    ensures value { result ≡ asks function.now found.now }
    ensures fits { IsTrue result → IsTrue (does_fit found.now) }
{
    found.flaw.is_none() && decodes(found.space, function) && does_fit(found)
}

/// Whether the range is what the register asks for.
pub(crate) fn is_asked_by(range: &Range, function: &Function, found: &FoundFunction) -> bool
    ensures { result ≡ is_asked_by range.now function.now found.now }
{
    if !asks(function, found) {
        return false;
    }
    let span = span_of(found);
    let end = u128::from(range.base) + u128::from(range.size);
    range.space == found.space && range.base == span.base && end == u128::from(span.limit) + 1
}

fn is_target_told(root: Root, functions: &[Function], target: &Target) -> bool
    ensures { result ≡ is_target_told root functions.now target.now }
{
    has_id(root, functions, target) && has_ranges(root, functions, target)
}

fn has_id(root: Root, functions: &[Function], target: &Target) -> bool
    ensures { result ≡ list_any (is_id_by root functions.now target.now) functions.now }
{
    functions
        .iter()
        .any(|function| is_id_by(root, functions, target, function))
}

fn is_id_by(root: Root, functions: &[Function], target: &Target, function: &Function) -> bool
    ensures { result ≡ is_id_by root functions.now target.now function.now }
{
    let header = function.header.as_slice();
    is_of_target(root, target, function)
        && is_first(root, functions, target, function)
        && register_2(header, 0x00) == target.vendor
        && register_2(header, 0x02) == target.model
}

fn is_first(root: Root, functions: &[Function], target: &Target, function: &Function) -> bool
    ensures { result ≡ is_first root functions.now target.now function.now }
{
    functions.iter().all(|other| {
        !is_of_target(root, target, other) || function.slot.function <= other.slot.function
    })
}

fn has_ranges(root: Root, functions: &[Function], target: &Target) -> bool
    ensures { result ≡ list_all (is_range_told root functions.now target.now) target.now.ranges }
{
    let ranges = target.ranges.as_slice();
    ranges
        .iter()
        .all(|range| is_range_told(root, functions, target, range))
}

fn is_range_told(root: Root, functions: &[Function], target: &Target, range: &Range) -> bool
    ensures { result ≡ is_range_told root functions.now target.now range.now }
{
    functions
        .iter()
        .any(|function| is_range_by(root, target, range, function))
}

fn is_range_by(root: Root, target: &Target, range: &Range, function: &Function) -> bool
    ensures { result ≡ is_range_by root target.now range.now function.now }
{
    is_of_target(root, target, function) && a_register_asks(range, function)
}

fn a_register_asks(range: &Range, function: &Function) -> bool
    ensures { result ≡ list_any (is_asked_by range.now function.now) (found_in function.now) }
{
    let found = found_in(function);
    let registers = found.as_slice();
    registers
        .iter()
        .any(|one| is_asked_by(range, function, one))
}

ghost use Rattle.std.specs.Prelude.{◌≡◌, ◌<◌, ◌≤◌, IsTrue, IfNone};
ghost use Rattle.import_targets.specs.Ranges.{unit_of, rounded_base, rounded_end, end_of_space};
ghost use Rattle.import_targets.specs.Ranges.{size_or_zero, fits, does_fit, span_of, registers_for};

use crate::fate::Placed;
use crate::{FoundFunction, NoRange, RangeFate};
use board_model::Window;
use import_bridges::{TakenBridge, decodes, first_passing, is_reached, shares};
use import_text::Function;
use pci_command::Space;

fn unit_of(space: Space) -> u64
    ensures value { result ≡ unit_of space }
    ensures some { 0 < result }
    ensures few { result ≤ 64 }
{
    match space {
        Space::Mem => 64, // not a limit
        Space::Io => 4,
        Space::Cfg => 1,
    }
}

fn end_of_space(space: Space) -> u128
    ensures { result ≡ end_of_space space }
{
    match space {
        Space::Mem => 0x1_0000_0000_0000_0000,
        Space::Io => 0x1_0000_0000,
        Space::Cfg => 0,
    }
}

fn rounded_base(space: Space, base: u64) -> u64
    ensures value { result ≡ rounded_base space base }
    ensures below { result ≤ base }
{
    let unit = unit_of(space);
    base / unit * unit
}

fn rounded_end(space: Space, base: u64, size: u64) -> u128
    ensures { result ≡ rounded_end space base size }
{
    let unit = u128::from(unit_of(space));
    (u128::from(base) + u128::from(size) + (unit - 1)) / unit * unit
}

fn size_or_zero(size: Option<u64>) -> u64
    ensures { result ≡ size_or_zero size }
{
    size.unwrap_or(0)
}

/// Whether the range that a register asks for, rounded outwards, ends within its space, has an
/// address, and has not all.
pub fn does_fit(found: &FoundFunction) -> bool
    ensures { result ≡ does_fit found.now }
{
    let base = u128::from(rounded_base(found.space, found.base));
    let end = rounded_end(found.space, found.base, size_or_zero(found.size));
    let whole = end_of_space(found.space);
    end <= whole && base < end && end - base < whole
}

/// The addresses of the range that a register asks for, rounded outwards to multiples of 64 bytes
/// in memory and of 4 in I/O.
pub fn span_of(found: &FoundFunction) -> Window
    requires { IsTrue (does_fit found.now) }
    ensures { result ≡ span_of found.now }
{
    Window {
        base: rounded_base(found.space, found.base),
        limit: (rounded_end(found.space, found.base, size_or_zero(found.size)) - 1) as u64,
    }
}

/// How many base address registers a range takes.
pub fn registers_for(span: Window) -> u32
    ensures value { result ≡ registers_for span }
    ensures few { result ≤ 2 }
{
    if span.base < 0x1_0000_0000 { 1 } else { 2 }
}

fn meets_placed(placed: &[Placed], bus: u8, space: Space, span: Window) -> bool {
    placed.iter().any(|one| one.bus == bus && one.space == space && shares(span, one.span))
}

/// What was taken before a range: bridges, the ranges on all buses, and the registers of its own
/// target.
#[derive(Clone, Copy)]
pub(crate) struct Before<'a> {
    pub root: u8,
    pub bridges: &'a [TakenBridge],
    pub placed: &'a [Placed],
    pub used: u32,
}

fn why_not_placed(before: Before<'_>, bus: u8, space: Space, span: Window) -> Option<NoRange> {
    if before.used.saturating_add(registers_for(span)) > 6 {
        return Some(NoRange::SixRegisters);
    }
    if !is_reached(before.root, before.bridges, bus, space, span) {
        return Some(NoRange::InNone(bus));
    }
    match first_passing(before.bridges, bus, space, span) {
        Some(bridge) => Some(NoRange::MeetsBridge(bridge.bus)),
        None if meets_placed(before.placed, bus, space, span) => Some(NoRange::MeetsRange),
        None => None,
    }
}

/// What becomes of the range that a register asks for.
pub(crate) fn range_fate(
    before: Before<'_>,
    bus: u8,
    function: &Function,
    found: &FoundFunction,
) -> RangeFate {
    match why_no_range(before, bus, function, found) {
        Some(reason) => RangeFate::LeftOut(reason),
        None => RangeFate::Taken(span_of(found)),
    }
}

fn why_no_range(
    before: Before<'_>,
    bus: u8,
    function: &Function,
    found: &FoundFunction,
) -> Option<NoRange>
    ensures { IfNone result (IsTrue (does_fit found.now)) }
{
    if let Some(flaw) = found.flaw {
        return Some(NoRange::Flawed(flaw));
    }
    if !decodes(found.space, function) {
        return Some(NoRange::Off);
    }
    if !does_fit(found) {
        return Some(NoRange::PassesEnd);
    }
    why_not_placed(before, bus, found.space, span_of(found))
}

ghost use Rattle.std.specs.Prelude.{◌≡◌, ◌+◌, ◌*◌, ◌<◌, ◌≤◌, ◌||◌, ◌^◌, nat_le, nat_lt, length};
ghost use Rattle.list_facts.specs.Lists.{total};
ghost use Rattle.board_model.specs.WellFormed.{registers_of};
ghost use Rattle.board_parser.specs.draft.Steps.{Changes};
ghost use Rattle.board_parser.specs.draft.Drafts.{board_of};
ghost use Rattle.board_parser.specs.draft.Targets.{agent_fault, new_target, add_target, unit_of};
ghost use Rattle.board_parser.specs.draft.Targets.{end_of, is_in_units, fits, put_range, put_abort};
ghost use Rattle.board_parser.specs.draft.Targets.{add_range, add_abort, add_opening};

use crate::draft::add::close;
use crate::draft::lists::{empty, push};
use crate::draft::{AddFault, AgentPlace, Draft};
use board_model::{
    MOST_DWORDS, MOST_OPENINGS, Name, Opening, Range, Target, registers_fit, registers_of,
};
use pci_command::Space;
use std::alloc::Global;
use text_faults::LineFault;

/// A target, unless a name or a limit forbids it by that fault.
pub(crate) fn add_target(
    alloc: Global,
    draft: &mut Draft,
    fault: Option<LineFault>,
    name: Name,
    bus: u8,
    device: u8,
) -> Result<(), AddFault>
    requires { fault ≡ agent_fault (board_of draft.old) name bus }
    ensures { Changes result draft.new
        (add_target draft.old.wide (board_of draft.old) name bus device) }
{
    close(alloc, draft)?;
    if let Some(fault) = fault {
        return Err(AddFault::Fault(fault));
    }
    draft.owner = AgentPlace::OfTarget(new_target(alloc, name, bus, device));
    Ok(())
}

fn new_target(alloc: Global, name: Name, bus: u8, device: u8) -> Target
    ensures { result ≡ new_target name bus device }
{
    Target {
        name,
        bus,
        device,
        vendor: 0x1234,
        model: 0x0001,
        stalls: 0,
        burst: MOST_DWORDS as u8,
        ranges: empty(alloc),
        aborts: empty(alloc),
        openings: empty(alloc),
    }
}

fn unit_of(space: Space) -> u64
    ensures value { result ≡ unit_of space }
    ensures some { 0 < result }
{
    match space {
        Space::Mem => 64,
        Space::Io | Space::Cfg => 4,
    }
}

fn end_of(wide: bool, space: Space) -> u128
    ensures { result ≡ end_of wide space }
{
    match space {
        Space::Mem if wide => 0x1_0000_0000_0000_0000,
        _ => 0x1_0000_0000,
    }
}

fn is_in_units(unit: u64, range: &Range) -> bool
    requires { 0 < unit }
    ensures { result ≡ is_in_units unit range.now }
{
    range.base % unit == 0 && range.size % unit == 0 && range.size > 0
}

fn fits(wide: bool, range: Range) -> Result<Range, LineFault>
    ensures { result ≡ fits wide range }
{
    if !is_in_units(unit_of(range.space), &range) {
        return Err(LineFault::Unaligned);
    }
    let past = u128::from(range.base) + u128::from(range.size);
    if past > end_of(wide, range.space) {
        return Err(LineFault::PastItsSpace);
    }
    Ok(range)
}

pub(crate) fn add_range(
    alloc: Global,
    wide: bool,
    range: Range,
    target: &mut Target,
) -> Result<(), AddFault>
    ensures { Changes result target.new (add_range wide range target.old) }
{
    put_range(alloc, target, fits(wide, range)?)
}

fn put_range(alloc: Global, target: &mut Target, range: Range) -> Result<(), AddFault>
    ensures { Changes result target.new (put_range target.old range) }
{
    if !has_registers(target.ranges.as_slice(), &range) {
        return Err(AddFault::Fault(LineFault::OverLimit));
    }
    push(alloc, &mut target.ranges, range)?;
    Ok(())
}

/// Whether six base address registers are enough for these ranges and one more.
fn has_registers(ranges: &[Range], more: &Range) -> bool
    ensures { result ≡ nat_le (total registers_of ranges.now + registers_of more.now) 6 }
{
    let own = registers_of(more);
    registers_fit(ranges, 6 - own)
}

pub(crate) fn add_abort(
    alloc: Global,
    wide: bool,
    range: Range,
    target: &mut Target,
) -> Result<(), AddFault>
    ensures { Changes result target.new (add_abort wide range target.old) }
{
    put_abort(alloc, target, fits(wide, range)?)
}

fn put_abort(alloc: Global, target: &mut Target, range: Range) -> Result<(), AddFault>
    ensures { Changes result target.new (put_abort target.old range) }
{
    if target.aborts.as_slice().len() >= 6 {
        return Err(AddFault::Fault(LineFault::OverLimit));
    }
    push(alloc, &mut target.aborts, range)?;
    Ok(())
}

pub(crate) fn add_opening(
    alloc: Global,
    opening: Opening,
    target: &mut Target,
) -> Result<(), AddFault>
    ensures { Changes result target.new (add_opening opening target.old) }
{
    if opening.address % 4 != 0 {
        return Err(AddFault::Fault(LineFault::Unaligned));
    }
    if target.openings.as_slice().len() >= MOST_OPENINGS {
        return Err(AddFault::Fault(LineFault::OverLimit));
    }
    push(alloc, &mut target.openings, opening)?;
    Ok(())
}

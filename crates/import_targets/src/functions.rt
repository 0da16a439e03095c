use crate::fate::Placed;
use crate::found::found_in;
use crate::ranges::{Before, range_fate, registers_for};
use crate::{FoundFunction, Judged, NoRange, RangeFate};
use import_bridges::TakenBridge;
use import_text::Function;
use pci_command::{List, NoMemory, Space};
use std::alloc::Global;

/// Why the board does not have the range of a register of a bridge itself: it has none of them.
pub fn why_of_bridge(found: &FoundFunction) -> NoRange {
    match found.flaw {
        Some(flaw) => NoRange::Flawed(flaw),
        None => NoRange::OfBridge,
    }
}

/// What becomes of the registers of the functions of a device on the bus, behind what was placed
/// before. Ranges that are taken are placed.
pub(crate) fn functions_behind(
    alloc: Global,
    root: u8,
    bridges: &[TakenBridge],
    bus: u8,
    placed: &mut Vec<Placed>,
    functions: &[Function],
) -> Result<List<List<Judged>>, NoMemory> {
    let on = OnBus { root, bridges, bus };
    let mut used = 0;
    let mut judged = Vec::new(alloc);
    for function in functions {
        judged.push(judged_behind(alloc, &on, placed, &mut used, function)?)?;
    }
    Ok(List::from_vec(judged))
}

/// The bus of a device, the root bus of its machine, and the bridges that are taken.
#[derive(Clone, Copy)]
struct OnBus<'a> {
    root: u8,
    bridges: &'a [TakenBridge],
    bus: u8,
}

/// What becomes of the registers of a function. Ranges that are taken are placed, and their
/// registers are used.
fn judged_behind(
    alloc: Global,
    on: &OnBus,
    placed: &mut Vec<Placed>,
    used: &mut u32,
    function: &Function,
) -> Result<List<Judged>, NoMemory> {
    let found = found_in(function);
    let mut judged = Vec::new(alloc);
    for one in found.as_slice() {
        let before = Before {
            root: on.root,
            bridges: on.bridges,
            placed: placed.as_slice(),
            used: *used,
        };
        let fate = range_fate(before, on.bus, function, one);
        place(placed, used, on.bus, one.space, fate)?;
        judged.push(Judged { found: *one, fate })?;
    }
    Ok(List::from_vec(judged))
}

/// A range that is taken is placed, and its registers are used.
fn place(
    placed: &mut Vec<Placed>,
    used: &mut u32,
    bus: u8,
    space: Space,
    fate: RangeFate,
) -> Result<(), NoMemory> {
    if let RangeFate::Taken(span) = fate {
        *used = used.saturating_add(registers_for(span));
        placed.push(Placed { bus, space, span })?;
    }
    Ok(())
}

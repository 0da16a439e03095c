use crate::devices::device_number;
use crate::header::byte_at;
use crate::windows::{io_fate, memory_fate, prefetchable_fate};
use crate::{BridgeFate, Buses, DevicePlace, Machine, NoBridge, TakenBridge};
use board_model::{MOST_BRIDGES, MOST_CHILDREN};
use import_text::Function;
use pci_command::{List, NoMemory};
use std::alloc::Global;

/// What becomes of each bridge of the machine.
pub fn bridge_fates(alloc: Global, machine: &Machine) -> Result<List<BridgeFate>, NoMemory> {
    let mut fates = Vec::new(alloc);
    let mut taken = Vec::new(alloc);
    let mut given = Vec::new(alloc);
    for function in machine.bridges.as_slice() {
        let fate = bridge_fate(machine, taken.as_slice(), given.as_slice(), function);
        if let BridgeFate::Taken(bridge) = fate {
            given.push(place_of(&bridge))?;
            taken.push(bridge)?;
        }
        fates.push(fate)?;
    }
    Ok(List::from_vec(fates))
}

/// Those that the board has.
pub fn taken_among(alloc: Global, fates: &[BridgeFate]) -> Result<List<TakenBridge>, NoMemory> {
    let mut taken = Vec::new(alloc);
    for fate in fates {
        if let BridgeFate::Taken(bridge) = fate {
            taken.push(*bridge)?;
        }
    }
    Ok(List::from_vec(taken))
}

/// The device number that a bridge got, and where.
pub fn place_of(bridge: &TakenBridge) -> DevicePlace {
    DevicePlace {
        bus: bridge.parent,
        device: bridge.device,
    }
}

fn secondary_of(function: &Function) -> u8 {
    byte_at(function.header.as_slice(), 0x19)
}

fn subordinate_of(function: &Function) -> u8 {
    byte_at(function.header.as_slice(), 0x1a)
}

fn bridge_to(taken: &[TakenBridge], bus: u8) -> Option<&TakenBridge> {
    taken.iter().find(|bridge| bridge.bus == bus)
}

fn last_by(bridge: Option<&TakenBridge>) -> Option<u8> {
    match bridge {
        Some(bridge) => Some(bridge.last),
        None => None,
    }
}

/// The last bus behind the bridge to this one, where one leads there; any behind the root.
fn last_behind(machine: &Machine, taken: &[TakenBridge], bus: u8) -> Option<u8> {
    if bus == machine.root.bus {
        Some(255)
    } else {
        last_by(bridge_to(taken, bus))
    }
}

/// Whether a bridge of the board leads to the bus, or it is the root.
pub fn is_led_to(machine: &Machine, taken: &[TakenBridge], bus: u8) -> bool {
    last_behind(machine, taken, bus).is_some()
}

fn bridge_fate(
    machine: &Machine,
    taken: &[TakenBridge],
    given: &[DevicePlace],
    function: &Function,
) -> BridgeFate {
    match last_behind(machine, taken, function.slot.bus) {
        None => BridgeFate::LeftOut(NoBridge::NoWay(function.slot.bus)),
        Some(last) => bridge_behind(machine, taken, given, function, last),
    }
}

/// Where the last bus behind the bridge to its bus is this.
fn bridge_behind(
    machine: &Machine,
    taken: &[TakenBridge],
    given: &[DevicePlace],
    function: &Function,
    last: u8,
) -> BridgeFate {
    let bus = function.slot.bus;
    let first = secondary_of(function);
    let end = subordinate_of(function);
    let buses = Buses { first, last: end };
    if !(bus < first && first <= end) {
        return BridgeFate::LeftOut(NoBridge::WrongBuses(buses));
    }
    if last < end {
        return BridgeFate::LeftOut(NoBridge::OutsideBuses(buses, bus));
    }
    if some_shares_buses(taken, bus, first, end) {
        return BridgeFate::LeftOut(NoBridge::SharedBuses(buses));
    }
    if is_full(taken, bus) {
        return BridgeFate::LeftOut(NoBridge::Full);
    }
    match device_number(machine, given, bus, function.slot.device) {
        None => BridgeFate::LeftOut(NoBridge::NoDevice),
        Some(device) => BridgeFate::Taken(bridge_with(machine, taken, function, device)),
    }
}

fn bridge_with(
    machine: &Machine,
    taken: &[TakenBridge],
    function: &Function,
    device: u8,
) -> TakenBridge {
    let root = machine.root.bus;
    TakenBridge {
        parent: function.slot.bus,
        bus: secondary_of(function),
        last: subordinate_of(function),
        device,
        mem: memory_fate(root, taken, function),
        pref: prefetchable_fate(root, taken, function),
        io: io_fate(root, taken, function),
    }
}

/// Whether a bridge on the bus has some of the buses from first to last.
fn some_shares_buses(taken: &[TakenBridge], bus: u8, first: u8, last: u8) -> bool {
    taken.iter().any(|bridge| bridge.parent == bus && bridge.bus <= last && first <= bridge.last)
}

fn is_full(taken: &[TakenBridge], bus: u8) -> bool {
    let beside = taken.iter().filter(|bridge| bridge.parent == bus).count();
    beside == MOST_CHILDREN || taken.len() == MOST_BRIDGES
}

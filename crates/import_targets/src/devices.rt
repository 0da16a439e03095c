ghost use Rattle.std.specs.Prelude.{◌<◌, ◌≤◌, length};

use crate::fate::Placed;
use crate::functions::functions_behind;
use crate::{Device, DeviceFate, Judged, RangeFate};
use import_bridges::{DevicePlace, Machine, TakenBridge, device_number, is_led_to, place_of};
use import_text::Function;
use pci_command::{List, NoMemory};
use std::alloc::Global;

/// The devices of a machine, and which of them are targets of a board that has these bridges.
pub fn devices_of(
    alloc: Global,
    machine: &Machine,
    bridges: &[TakenBridge],
) -> Result<List<Device>, NoMemory> {
    let mut taken = Taken {
        given: places_of(alloc, bridges)?,
        targets: Vec::new(alloc),
        placed: Vec::new(alloc),
    };
    let mut devices = Vec::new(alloc);
    push_devices(
        alloc,
        &mut devices,
        machine,
        bridges,
        &mut taken,
        machine.others.as_slice(),
    )?;
    Ok(List::from_vec(devices))
}

/// Those of the functions.
fn push_devices(
    alloc: Global,
    devices: &mut Vec<Device>,
    machine: &Machine,
    bridges: &[TakenBridge],
    taken: &mut Taken,
    functions: &[Function],
) -> Result<(), NoMemory> {
    let mut left = functions;
    while let [first, ..] = left {
        let (own, behind) = left.split_at(functions_of(first, left));
        devices.push(judged_device(alloc, machine, bridges, taken, first, own)?)?;
        left = behind;
    }
    Ok(())
}

/// What was taken by now: the device numbers that were given, those of targets, and ranges.
#[derive(Drop)]
struct Taken {
    given: Vec<DevicePlace>,
    targets: Vec<DevicePlace>,
    placed: Vec<Placed>,
}

fn judged_device(
    alloc: Global,
    machine: &Machine,
    bridges: &[TakenBridge],
    taken: &mut Taken,
    first: &Function,
    functions: &[Function],
) -> Result<Device, NoMemory> {
    let place = DevicePlace {
        bus: first.slot.bus,
        device: first.slot.device,
    };
    let before = taken.placed.len();
    let judged = functions_behind(
        alloc,
        machine.root.bus,
        bridges,
        place.bus,
        &mut taken.placed,
        functions,
    )?;
    let fate = device_fate(machine, bridges, taken, place, judged.as_slice());
    settle(taken, before, place.bus, fate)?;
    Ok(Device {
        bus: place.bus,
        device: place.device,
        fate,
        functions: judged,
    })
}

/// A target has its device number, and what was placed for it stays: for no other device does it.
fn settle(taken: &mut Taken, before: usize, bus: u8, fate: DeviceFate) -> Result<(), NoMemory> {
    match fate {
        DeviceFate::Target(device) => {
            taken.given.push(DevicePlace { bus, device })?;
            taken.targets.push(DevicePlace { bus, device })?;
        }
        _ => taken.placed.truncate(before),
    }
    Ok(())
}

fn device_fate(
    machine: &Machine,
    bridges: &[TakenBridge],
    taken: &Taken,
    place: DevicePlace,
    functions: &[List<Judged>],
) -> DeviceFate {
    if !is_led_to(machine, bridges, place.bus) {
        return DeviceFate::NoWay;
    }
    if !some_claims(functions) {
        return DeviceFate::NoRanges;
    }
    if count_on(taken.targets.as_slice(), place.bus) == 6 {
        return DeviceFate::SixTargets;
    }
    match device_number(machine, taken.given.as_slice(), place.bus, place.device) {
        Some(device) => DeviceFate::Target(device),
        None => DeviceFate::NoNumber,
    }
}

fn some_claims(functions: &[List<Judged>]) -> bool {
    functions
        .iter()
        .any(|judged| claims_something(judged.as_slice()))
}

/// Whether one of the ranges of a function is taken.
pub fn claims_something(judged: &[Judged]) -> bool {
    judged.iter().any(|one| is_placed(one.fate))
}

/// Whether the board has the range.
pub fn is_placed(fate: RangeFate) -> bool {
    matches!(fate, RangeFate::Taken(_))
}

/// How many of the targets are on the bus.
fn count_on(targets: &[DevicePlace], bus: u8) -> usize {
    targets.iter().filter(|target| target.bus == bus).count()
}

/// How many of the functions, from the first on, are of its device: at least that one.
fn functions_of(first: &Function, functions: &[Function]) -> usize
    ensures within { 0 < length functions.now → result ≤ length functions.now }
    ensures some { 0 < result }
{
    let others = functions
        .iter()
        .position(|other| !same_device(first, other))
        .unwrap_or(functions.len());
    if others == 0 { 1 } else { others }
}

fn same_device(function: &Function, other: &Function) -> bool {
    function.slot.bus == other.slot.bus && function.slot.device == other.slot.device
}

fn places_of(alloc: Global, bridges: &[TakenBridge]) -> Result<Vec<DevicePlace>, NoMemory> {
    let mut places = Vec::new(alloc);
    for bridge in bridges {
        places.push(place_of(bridge))?;
    }
    Ok(places)
}

use board_model::Window;
use import_bridges::{BridgeFate, Machine, WindowFate};
use import_targets::{
    Device, DeviceFate, Judged, RangeFate, claims_something, found_in, is_placed,
};
use import_text::Function;
use pci_command::List;

pub(crate) fn is_taken(fate: &BridgeFate) -> bool {
    matches!(fate, BridgeFate::Taken(_))
}

pub(crate) fn is_target(fate: DeviceFate) -> bool {
    matches!(fate, DeviceFate::Target(_))
}

pub(crate) fn is_lost(fate: DeviceFate) -> bool {
    matches!(fate, DeviceFate::NoWay)
}

fn is_closed(fate: WindowFate) -> bool {
    matches!(fate, WindowFate::Closed(..))
}

pub(crate) fn bridges_taken(fates: &[BridgeFate]) -> usize {
    fates.iter().filter(|fate| is_taken(fate)).count()
}

fn bridges_left(fates: &[BridgeFate]) -> usize {
    fates.iter().filter(|fate| !is_taken(fate)).count()
}

pub(crate) fn targets_taken(devices: &[Device]) -> usize {
    devices
        .iter()
        .filter(|device| is_target(device.fate))
        .count()
}

fn windows_left_of(fate: &BridgeFate) -> u64 {
    match fate {
        BridgeFate::LeftOut(_) => 0,
        BridgeFate::Taken(bridge) => {
            u64::from(is_closed(bridge.mem))
                + u64::from(is_closed(bridge.pref))
                + u64::from(is_closed(bridge.io))
        }
    }
}

pub(crate) fn windows_left(fates: &[BridgeFate]) -> u64 {
    let mut count = 0_u64;
    for fate in fates {
        count = count.saturating_add(windows_left_of(fate));
    }
    count
}

fn own_ranges_of(function: &Function, fate: &BridgeFate) -> u64 {
    if is_taken(fate) {
        found_in(function).len() as u64
    } else {
        0
    }
}

/// How many own ranges the bridges have that are taken.
fn own_ranges(functions: &[Function], fates: &[BridgeFate]) -> u64 {
    let mut count = 0_u64;
    for (function, fate) in functions.iter().zip(fates) {
        count = count.saturating_add(own_ranges_of(function, fate));
    }
    count
}

fn count_placed(judged: &[Judged]) -> usize {
    judged.iter().filter(|one| is_placed(one.fate)).count()
}

fn count_not_placed(judged: &[Judged]) -> usize {
    judged.iter().filter(|one| !is_placed(one.fate)).count()
}

fn placed_in(functions: &[List<Judged>]) -> u64 {
    let mut count = 0_u64;
    for judged in functions {
        count = count.saturating_add(count_placed(judged.as_slice()) as u64);
    }
    count
}

fn not_placed_in(functions: &[List<Judged>]) -> u64 {
    let mut count = 0_u64;
    for judged in functions {
        count = count.saturating_add(count_not_placed(judged.as_slice()) as u64);
    }
    count
}

fn all_in(functions: &[List<Judged>]) -> u64 {
    let mut count = 0_u64;
    for judged in functions {
        count = count.saturating_add(judged.as_slice().len() as u64);
    }
    count
}

fn taken_of(device: &Device) -> u64 {
    if is_target(device.fate) {
        placed_in(device.functions.as_slice())
    } else {
        0
    }
}

fn left_of(device: &Device) -> u64 {
    let functions = device.functions.as_slice();
    if is_target(device.fate) {
        not_placed_in(functions)
    } else if is_lost(device.fate) {
        0
    } else {
        all_in(functions)
    }
}

pub(crate) fn ranges_taken(devices: &[Device]) -> u64 {
    let mut count = 0_u64;
    for device in devices {
        count = count.saturating_add(taken_of(device));
    }
    count
}

fn ranges_left_in(devices: &[Device]) -> u64 {
    let mut count = 0_u64;
    for device in devices {
        count = count.saturating_add(left_of(device));
    }
    count
}

pub(crate) fn ranges_left(machine: &Machine, fates: &[BridgeFate], devices: &[Device]) -> u64 {
    own_ranges(machine.bridges.as_slice(), fates).saturating_add(ranges_left_in(devices))
}

fn silent_in(functions: &[List<Judged>]) -> usize {
    functions
        .iter()
        .filter(|judged| !claims_something(judged.as_slice()))
        .count()
}

fn functions_left_of(device: &Device) -> usize {
    let functions = device.functions.as_slice();
    if is_target(device.fate) {
        silent_in(functions)
    } else {
        functions.len()
    }
}

fn functions_left_in(devices: &[Device]) -> u64 {
    let mut count = 0_u64;
    for device in devices {
        count = count.saturating_add(functions_left_of(device) as u64);
    }
    count
}

pub(crate) fn functions_left(fates: &[BridgeFate], devices: &[Device]) -> u64 {
    functions_left_in(devices).saturating_add(bridges_left(fates) as u64)
}

fn is_far(window: Window) -> bool {
    window.limit >= 0x1_0000_0000
}

fn has_far_window(fate: WindowFate) -> bool {
    match fate {
        WindowFate::Open(window) => is_far(window),
        WindowFate::Absent | WindowFate::Closed(..) => false,
    }
}

fn is_far_bridge(fate: &BridgeFate) -> bool {
    match fate {
        BridgeFate::LeftOut(_) => false,
        BridgeFate::Taken(bridge) => {
            has_far_window(bridge.mem) || has_far_window(bridge.pref) || has_far_window(bridge.io)
        }
    }
}

fn has_far_range(judged: &[Judged]) -> bool {
    judged.iter().any(|one| is_far_range(one.fate))
}

fn is_far_range(fate: RangeFate) -> bool {
    match fate {
        RangeFate::Taken(span) => {
            is_far(span) || span.limit.saturating_sub(span.base) >= 0xffff_ffff
        }
        RangeFate::LeftOut(_) => false,
    }
}

fn is_far_device(device: &Device) -> bool {
    is_target(device.fate) && some_far(device.functions.as_slice())
}

fn some_far(functions: &[List<Judged>]) -> bool {
    functions
        .iter()
        .any(|judged| has_far_range(judged.as_slice()))
}

/// Whether a window or a range of the board reaches 2^32, or a range has so many addresses.
pub(crate) fn has_far(fates: &[BridgeFate], devices: &[Device]) -> bool {
    has_far_bridge(fates) || has_far_device(devices)
}

fn has_far_bridge(fates: &[BridgeFate]) -> bool {
    fates.iter().any(|fate| is_far_bridge(fate))
}

fn has_far_device(devices: &[Device]) -> bool {
    devices.iter().any(|device| is_far_device(device))
}

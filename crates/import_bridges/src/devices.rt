use crate::Machine;
use import_text::Function;

/// A device number on a bus, by the text.
#[derive(Clone, Copy, Debug, PartialEq, Eq)]
pub struct DevicePlace {
    pub bus: u8,
    pub device: u8,
}

/// The device number that an agent of the board gets: its own, if none of those given is that, else
/// the greatest that is neither in the text nor was given.
pub fn device_number(machine: &Machine, given: &[DevicePlace], bus: u8, own: u8) -> Option<u8> {
    if is_given(given, bus, own) {
        greatest_free(machine, given, bus, 32) // not a limit
    } else {
        Some(own)
    }
}

fn greatest_free(machine: &Machine, given: &[DevicePlace], bus: u8, below: u8) -> Option<u8> {
    if below == 0 {
        return None;
    }
    let device = below - 1;
    if is_free(machine, given, bus, device) {
        Some(device)
    } else {
        greatest_free(machine, given, bus, device)
    }
}

fn is_free(machine: &Machine, given: &[DevicePlace], bus: u8, device: u8) -> bool {
    !is_in_text(machine, bus, device) && !is_given(given, bus, device)
}

fn is_given(given: &[DevicePlace], bus: u8, device: u8) -> bool {
    given
        .iter()
        .any(|place| place.bus == bus && place.device == device)
}

fn is_in_text(machine: &Machine, bus: u8, device: u8) -> bool {
    some_has_device(machine.bridges.as_slice(), bus, device)
        || some_has_device(machine.others.as_slice(), bus, device)
}

fn some_has_device(functions: &[Function], bus: u8, device: u8) -> bool {
    functions.iter().any(|function| function.slot.bus == bus && function.slot.device == device)
}

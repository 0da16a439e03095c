use crate::bridges::print_bridges;
use crate::counts::{
    bridges_taken, functions_left, has_far, ranges_left, ranges_taken, targets_taken, windows_left,
};
use crate::devices::print_devices;
use board_printer::{HexHalf, HexWord};
use import_bridges::{BridgeFate, Machine};
use import_targets::Device;
use pci_command::{List, NoMemory};
use std::alloc::{AllocError, Global};

/// The board text of a machine, where this becomes of its bridges and of its devices.
pub fn import_text(
    alloc: Global,
    machine: &Machine,
    fates: &[BridgeFate],
    devices: &[Device],
) -> Result<List<u8>, NoMemory> {
    let mut text = String::new(alloc);
    print_text(&mut text, machine, fates, devices)?;
    Ok(List::from_vec(text.into_bytes()))
}

fn print_text(
    text: &mut String,
    machine: &Machine,
    fates: &[BridgeFate],
    devices: &[Device],
) -> Result<(), AllocError> {
    print_head(text, machine, fates, devices)?;
    print_bridges(text, machine, machine.bridges.as_slice(), fates)?;
    print_devices(text, machine, machine.others.as_slice(), devices)
}

fn print_head(
    text: &mut String,
    machine: &Machine,
    fates: &[BridgeFate],
    devices: &[Device],
) -> Result<(), AllocError> {
    print_version(text, has_far(fates, devices))?;
    print_taken(text, fates, devices)?;
    print_left(text, machine, fates, devices)?;
    writeln!(
        text,
        "# not told by the text: main memory, masters, depths of bridges"
    )?;
    print_root(text, machine)
}

fn print_version(text: &mut String, far: bool) -> Result<(), AllocError> {
    if far {
        writeln!(text, "pciboard 2")
    } else {
        writeln!(text, "pciboard 1")
    }
}

fn print_taken(
    text: &mut String,
    fates: &[BridgeFate],
    devices: &[Device],
) -> Result<(), AllocError> {
    let bridges = bridges_taken(fates);
    let targets = targets_taken(devices);
    let ranges = ranges_taken(devices);
    writeln!(
        text,
        "# import: {bridges} bridges, {targets} targets, {ranges} ranges"
    )
}

fn print_left(
    text: &mut String,
    machine: &Machine,
    fates: &[BridgeFate],
    devices: &[Device],
) -> Result<(), AllocError> {
    let functions = functions_left(fates, devices);
    let windows = windows_left(fates);
    let ranges = ranges_left(machine, fates, devices);
    print_left_counts(text, functions, windows, ranges)
}

fn print_left_counts(
    text: &mut String,
    functions: u64,
    windows: u64,
    ranges: u64,
) -> Result<(), AllocError> {
    writeln!(
        text,
        "# left out: {functions} functions, {windows} windows, {ranges} ranges"
    )
}

/// What is said of the root and of other domains.
fn print_root(text: &mut String, machine: &Machine) -> Result<(), AllocError> {
    print_root_bus(text, machine.root.bus)?;
    print_elsewhere(text, machine.elsewhere, machine.root.domain)
}

fn print_root_bus(text: &mut String, bus: u8) -> Result<(), AllocError> {
    if bus == 0 {
        return Ok(());
    }
    writeln!(text, "# bus 0 is bus {bus} of the text")
}

fn print_elsewhere(text: &mut String, many: u64, domain: u32) -> Result<(), AllocError> {
    if many == 0 {
        return Ok(());
    }
    print_elsewhere_line(text, many, domain)
}

fn print_elsewhere_line(text: &mut String, many: u64, domain: u32) -> Result<(), AllocError> {
    print_elsewhere_words(text, many)?;
    print_domain(text, domain)?;
    writeln!(text, " are left out")
}

fn print_elsewhere_words(text: &mut String, many: u64) -> Result<(), AllocError> {
    write!(text, "# {many} functions of other domains than ")
}

fn print_domain(text: &mut String, domain: u32) -> Result<(), AllocError> {
    if domain < 0x1_0000 {
        write!(text, "{}", HexHalf(domain as u16))
    } else {
        write!(text, "{}", HexWord(domain))
    }
}

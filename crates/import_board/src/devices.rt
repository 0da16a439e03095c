use crate::counts::{is_lost, is_target};
use crate::notes::{
    HexByte, print_bus, print_device_note, print_judged, print_left_out, print_range, print_title,
};
use board_printer::HexHalf;
use import_bridges::{Machine, header_type, register_2};
use import_targets::{Device, DeviceFate, FoundFunction, Judged, claims_something, is_placed};
use import_text::Function;
use pci_command::List;
use std::alloc::AllocError;

/// The devices, of which each has the next functions, as many as it was judged with.
pub(crate) fn print_devices(
    text: &mut String,
    machine: &Machine,
    functions: &[Function],
    devices: &[Device],
) -> Result<(), AllocError> {
    let mut left = functions;
    for device in devices {
        let many = device.functions.as_slice().len().min(left.len());
        let (own, behind) = left.split_at(many);
        print_device(text, machine, device, own)?;
        left = behind;
    }
    Ok(())
}

fn print_device(
    text: &mut String,
    machine: &Machine,
    device: &Device,
    functions: &[Function],
) -> Result<(), AllocError> {
    match functions.split_first() {
        None => Ok(()),
        Some((first, _)) => {
            print_head(text, machine, first, device)?;
            print_functions(text, device, functions, device.functions.as_slice())
        }
    }
}

fn print_head(
    text: &mut String,
    machine: &Machine,
    first: &Function,
    device: &Device,
) -> Result<(), AllocError> {
    match device.fate {
        DeviceFate::Target(number) => print_target(text, machine, first, device, number),
        DeviceFate::SixTargets | DeviceFate::NoNumber => print_left_target(text, device),
        DeviceFate::NoWay | DeviceFate::NoRanges => Ok(()),
    }
}

fn print_left_target(text: &mut String, device: &Device) -> Result<(), AllocError> {
    print_left_out(text)?;
    print_target_name(text, device)?;
    print_why_line(text, device)
}

fn print_why_line(text: &mut String, device: &Device) -> Result<(), AllocError> {
    text.push_str(", ")?;
    print_why_no_target(text, device)?;
    writeln!(text)
}

fn print_target_name(text: &mut String, device: &Device) -> Result<(), AllocError> {
    let bus = HexByte(device.bus);
    let number = HexByte(device.device);
    write!(text, "target d{bus}-{number}")
}

fn print_target(
    text: &mut String,
    machine: &Machine,
    first: &Function,
    device: &Device,
    number: u8,
) -> Result<(), AllocError> {
    print_target_line(text, machine, device, number)?;
    print_id(text, first)?;
    print_device_note(text, number, device.device)
}

fn print_target_line(
    text: &mut String,
    machine: &Machine,
    device: &Device,
    number: u8,
) -> Result<(), AllocError> {
    print_target_name(text, device)?;
    text.push_str(" on ")?;
    print_bus(text, machine, device.bus)?;
    writeln!(text, " dev {number}")
}

fn print_id(text: &mut String, first: &Function) -> Result<(), AllocError> {
    let vendor = register_2(first.header.as_slice(), 0x00);
    let model = register_2(first.header.as_slice(), 0x02);
    if vendor == 0x1234 && model == 1 {
        return Ok(());
    }
    writeln!(text, "id {} {}", HexHalf(vendor), HexHalf(model))
}

fn print_why_no_target(text: &mut String, device: &Device) -> Result<(), AllocError> {
    match device.fate {
        DeviceFate::SixTargets => write!(text, "bus {} has its 6 targets", device.bus),
        DeviceFate::NoNumber => text.push_str("no device number is free"),
        DeviceFate::NoWay => write!(text, "no bridge of this board leads to bus {}", device.bus),
        DeviceFate::NoRanges | DeviceFate::Target(_) => Ok(()),
    }
}

fn print_functions(
    text: &mut String,
    device: &Device,
    functions: &[Function],
    judged: &[List<Judged>],
) -> Result<(), AllocError> {
    for (function, one) in functions.iter().zip(judged) {
        print_function(text, device, function, one.as_slice())?;
    }
    Ok(())
}

fn print_function(
    text: &mut String,
    device: &Device,
    function: &Function,
    judged: &[Judged],
) -> Result<(), AllocError> {
    print_title(text, function)?;
    print_function_body(text, device, function, judged)
}

fn print_function_body(
    text: &mut String,
    device: &Device,
    function: &Function,
    judged: &[Judged],
) -> Result<(), AllocError> {
    if is_lost(device.fate) {
        print_lost(text, device.bus)
    } else {
        print_by_kind(text, device, header_type(function), judged)
    }
}

fn print_lost(text: &mut String, bus: u8) -> Result<(), AllocError> {
    writeln!(
        text,
        "# left out: no bridge of this board leads to bus {bus}"
    )
}

fn print_by_kind(
    text: &mut String,
    device: &Device,
    kind: u8,
    judged: &[Judged],
) -> Result<(), AllocError> {
    if kind > 1 {
        print_kind_line(text, kind)
    } else {
        print_registers(text, device, judged)
    }
}

fn print_kind_line(text: &mut String, kind: u8) -> Result<(), AllocError> {
    writeln!(text, "# left out: its header is of type {kind}")
}

fn print_registers(
    text: &mut String,
    device: &Device,
    judged: &[Judged],
) -> Result<(), AllocError> {
    print_ranges(text, device, judged)?;
    print_silence(text, claims_something(judged))
}

fn print_ranges(text: &mut String, device: &Device, judged: &[Judged]) -> Result<(), AllocError> {
    for one in judged {
        print_range_of_device(text, device, one)?;
    }
    Ok(())
}

fn print_silence(text: &mut String, claims: bool) -> Result<(), AllocError> {
    if claims {
        Ok(())
    } else {
        writeln!(text, "# left out: it claims nothing here")
    }
}

/// What becomes of a register: a range that could be taken is left out with its target.
fn print_range_of_device(
    text: &mut String,
    device: &Device,
    judged: &Judged,
) -> Result<(), AllocError> {
    if is_target(device.fate) || !is_placed(judged.fate) {
        return print_judged(text, judged);
    }
    print_left_with_target(text, device, &judged.found)
}

fn print_left_with_target(
    text: &mut String,
    device: &Device,
    found: &FoundFunction,
) -> Result<(), AllocError> {
    print_left_out(text)?;
    print_range(text, found)?;
    print_why_line(text, device)
}

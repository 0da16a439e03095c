ghost use Rattle.std.specs.Prelude.{◌<◌};

use crate::notes::{print_bus, print_device_note, print_left_out, print_left_range, print_title};
use board_model::Window;
use board_printer::Address;
use import_bridges::{BridgeFate, Machine, NoWindow, TakenBridge, WindowFate, byte_at, register_2};
use import_targets::{found_in, why_of_bridge};
use import_text::Function;
use std::alloc::AllocError;

/// Each bridge with what becomes of it.
pub(crate) fn print_bridges(
    text: &mut String,
    machine: &Machine,
    functions: &[Function],
    fates: &[BridgeFate],
) -> Result<(), AllocError> {
    for (function, fate) in functions.iter().zip(fates) {
        print_title(text, function)?;
        print_body(text, machine, function, fate)?;
    }
    Ok(())
}

fn print_body(
    text: &mut String,
    machine: &Machine,
    function: &Function,
    fate: &BridgeFate,
) -> Result<(), AllocError> {
    match fate {
        BridgeFate::LeftOut(reason) => writeln!(text, "# left out: {reason}"),
        BridgeFate::Taken(bridge) => {
            print_bridge(text, machine, function, bridge)?;
            print_notes(text, function, bridge)
        }
    }
}

fn print_bridge(
    text: &mut String,
    machine: &Machine,
    function: &Function,
    bridge: &TakenBridge,
) -> Result<(), AllocError> {
    print_place(text, machine, bridge)?;
    print_windows(text, bridge)?;
    print_abort(text, control_bit(5, function))?;
    writeln!(text)
}

fn print_place(
    text: &mut String,
    machine: &Machine,
    bridge: &TakenBridge,
) -> Result<(), AllocError> {
    write!(text, "bridge {} on ", bridge.bus)?;
    print_bus(text, machine, bridge.parent)?;
    write!(text, " dev {} last {}", bridge.device, bridge.last)
}

fn print_windows(text: &mut String, bridge: &TakenBridge) -> Result<(), AllocError> {
    print_open(text, "mem", bridge.mem)?;
    print_open(text, "pref", bridge.pref)?;
    print_open(text, "io", bridge.io)
}

fn print_abort(text: &mut String, mode: bool) -> Result<(), AllocError> {
    if mode {
        text.push_str(" abort 1")
    } else {
        Ok(())
    }
}

fn print_window(text: &mut String, word: &str, window: Window) -> Result<(), AllocError> {
    write!(
        text,
        "{word} {} {}",
        Address(window.base),
        Address(window.limit)
    )
}

fn print_open(text: &mut String, word: &str, fate: WindowFate) -> Result<(), AllocError> {
    match fate {
        WindowFate::Open(window) => {
            text.push_str(" ")?;
            print_window(text, word, window)
        }
        WindowFate::Absent | WindowFate::Closed(..) => Ok(()),
    }
}

fn print_closed(text: &mut String, word: &str, fate: WindowFate) -> Result<(), AllocError> {
    match fate {
        WindowFate::Closed(window, reason) => print_left_window(text, word, window, reason),
        WindowFate::Absent | WindowFate::Open(_) => Ok(()),
    }
}

fn print_left_window(
    text: &mut String,
    word: &str,
    window: Window,
    reason: NoWindow,
) -> Result<(), AllocError> {
    print_left_out(text)?;
    print_window(text, word, window)?;
    writeln!(text, ", {reason}")
}

/// What a board cannot say of a bridge.
fn print_notes(
    text: &mut String,
    function: &Function,
    bridge: &TakenBridge,
) -> Result<(), AllocError> {
    print_closed(text, "mem", bridge.mem)?;
    print_closed(text, "pref", bridge.pref)?;
    print_closed(text, "io", bridge.io)?;
    print_own_ranges(text, function)?;
    print_numbers(text, function, bridge)?;
    print_control(text, function)
}

fn print_own_ranges(text: &mut String, function: &Function) -> Result<(), AllocError> {
    let own = found_in(function);
    for found in own.as_slice() {
        print_left_range(text, found, why_of_bridge(found))?;
    }
    Ok(())
}

fn print_numbers(
    text: &mut String,
    function: &Function,
    bridge: &TakenBridge,
) -> Result<(), AllocError> {
    print_device_note(text, bridge.device, function.slot.device)?;
    print_primary_note(
        text,
        byte_at(function.header.as_slice(), 0x18),
        function.slot.bus,
    )
}

fn print_primary_note(text: &mut String, primary: u8, bus: u8) -> Result<(), AllocError> {
    if primary == bus {
        return Ok(());
    }
    writeln!(text, "# its register has primary bus {primary}")
}

/// Whether the bit of Bridge Control is set.
fn control_bit(bit: u8, function: &Function) -> bool
    requires { bit < 16 }
{
    (register_2(function.header.as_slice(), 0x3e) >> bit) & 1 == 1
}

fn print_control(text: &mut String, function: &Function) -> Result<(), AllocError> {
    print_master(text, !is_master(function))?;
    print_enables(text, function)?;
    print_decoding(text, is_subtractive(function))
}

fn is_master(function: &Function) -> bool {
    (register_2(function.header.as_slice(), 0x04) >> 2) & 1 == 1
}

fn is_subtractive(function: &Function) -> bool {
    byte_at(function.header.as_slice(), 0x09) & 1 == 1
}

fn print_master(text: &mut String, holds: bool) -> Result<(), AllocError> {
    if !holds {
        return Ok(());
    }
    writeln!(
        text,
        "# bus master is off: the real bridge passes nothing upwards"
    )
}

fn print_enables(text: &mut String, function: &Function) -> Result<(), AllocError> {
    print_vga(text, control_bit(3, function))?;
    print_isa(text, control_bit(2, function))?;
    print_reset(text, control_bit(6, function))
}

fn print_vga(text: &mut String, holds: bool) -> Result<(), AllocError> {
    if !holds {
        return Ok(());
    }
    writeln!(text, "# VGA enable is on: its addresses do not pass here")
}

fn print_isa(text: &mut String, holds: bool) -> Result<(), AllocError> {
    if !holds {
        return Ok(());
    }
    writeln!(
        text,
        "# ISA enable is on: the real bridge passes 256 bytes of each KiB of its I/O window"
    )
}

fn print_reset(text: &mut String, holds: bool) -> Result<(), AllocError> {
    if !holds {
        return Ok(());
    }
    writeln!(text, "# secondary reset is on")
}

fn print_decoding(text: &mut String, holds: bool) -> Result<(), AllocError> {
    if !holds {
        return Ok(());
    }
    writeln!(
        text,
        "# subtractive decoding: what nobody claims does not pass down here"
    )
}

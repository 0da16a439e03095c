use board_model::Window;
use board_printer::{Address, space_word};
use import_bridges::Machine;
use import_targets::{FoundFunction, Judged, NoRange, RangeFate};
use import_text::{CapabilityKind, Function};
use pci_command::Space;
use std::alloc::AllocError;
use std::fmt;

/// Two hexadecimal digits.
#[derive(Clone, Copy)]
pub(crate) struct HexByte(pub(crate) u8);

impl fmt::Display for HexByte {
    fn fmt<W: fmt::Write>(&self, f: &mut fmt::Formatter<W>) -> fmt::Result {
        let high = self.0 / 16;
        let low = self.0 % 16;
        write!(f, "{high:x}{low:x}")
    }
}

/// How a comment on what the board does not have begins.
pub(crate) fn print_left_out(text: &mut String) -> Result<(), AllocError> {
    text.push_str("# left out: ")
}

/// The root is bus 0 of the board.
pub(crate) fn print_bus(text: &mut String, machine: &Machine, bus: u8) -> Result<(), AllocError> {
    let number = if bus == machine.root.bus { 0 } else { bus };
    write!(text, "{number}")
}

/// Where a function is, its name, and the kind of PCI that it says it is.
pub(crate) fn print_title(text: &mut String, function: &Function) -> Result<(), AllocError> {
    let bus = HexByte(function.slot.bus);
    let device = HexByte(function.slot.device);
    let number = function.slot.function;
    write!(text, "# {bus}:{device}.{number} ")?;
    print_name(text, function.name.as_slice())?;
    print_kind(text, function.kind)?;
    writeln!(text)
}

/// What is no printing character is shown as a question mark.
fn print_name(text: &mut String, name: &[u8]) -> Result<(), AllocError> {
    for byte in name {
        let shown = if (0x20..0x7f).contains(byte) {
            *byte
        } else {
            b'?'
        };
        text.push(char::from(shown))?;
    }
    Ok(())
}

fn print_kind(text: &mut String, kind: Option<CapabilityKind>) -> Result<(), AllocError> {
    match kind {
        Some(CapabilityKind::Express) => text.push_str(" (PCI Express)"),
        Some(CapabilityKind::PciX) => text.push_str(" (PCI-X)"),
        None => Ok(()),
    }
}

/// What a register asks for: its space, its base, and its size where that is told.
pub(crate) fn print_range(text: &mut String, found: &FoundFunction) -> Result<(), AllocError> {
    if found.base == 0 {
        return write!(text, "base address register {}", found.number);
    }
    write!(
        text,
        "range {} {}",
        space_word(found.space),
        Address(found.base)
    )?;
    match found.size {
        Some(size) => write!(text, " {}", Address(size)),
        None => Ok(()),
    }
}

/// A range of the board.
fn print_range_line(text: &mut String, space: Space, span: Window) -> Result<(), AllocError> {
    let size = span.limit.saturating_sub(span.base).saturating_add(1);
    writeln!(
        text,
        "range {} {} {}",
        space_word(space),
        Address(span.base),
        Address(size)
    )
}

/// What becomes of a register.
pub(crate) fn print_judged(text: &mut String, judged: &Judged) -> Result<(), AllocError> {
    match judged.fate {
        RangeFate::Taken(span) => print_range_line(text, judged.found.space, span),
        RangeFate::LeftOut(reason) => print_left_range(text, &judged.found, reason),
    }
}

pub(crate) fn print_left_range(
    text: &mut String,
    found: &FoundFunction,
    reason: NoRange,
) -> Result<(), AllocError> {
    print_left_out(text)?;
    print_range(text, found)?;
    writeln!(text, ", {reason}")
}

/// Where a device number is another than that of the text.
pub(crate) fn print_device_note(text: &mut String, number: u8, own: u8) -> Result<(), AllocError> {
    if number == own {
        return Ok(());
    }
    writeln!(text, "# its device number was {own}")
}

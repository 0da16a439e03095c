use crate::{Flaw, FoundFunction};
use board_model::Window;
use pci_command::{List, Space};
use std::fmt;

/// Why a range is left out. Buses are those of the text.
#[derive(Clone, Copy, Debug, PartialEq, Eq)]
pub enum NoRange {
    /// The register tells of none.
    Flawed(Flaw),
    /// It is the range of a bridge itself.
    OfBridge,
    /// The command register turns it off.
    Off,
    /// It passes the end of its space, or has no address or all of them.
    PassesEnd,
    /// Its target has its six base address registers.
    SixRegisters,
    /// The bridge to this bus, on which it is, does not pass all of it.
    InNone(u8),
    /// The bridge to this bus, on the same bus, passes some of it.
    MeetsBridge(u8),
    /// Another range on its bus has some of it.
    MeetsRange,
}

/// What becomes of a range: the board has it, with these addresses, or it is left out.
#[derive(Clone, Copy, Debug, PartialEq, Eq)]
pub enum RangeFate {
    Taken(Window),
    LeftOut(NoRange),
}

/// What a base address register asks for, and what becomes of it.
#[derive(Clone, Copy, Debug, PartialEq, Eq)]
pub struct Judged {
    pub found: FoundFunction,
    pub fate: RangeFate,
}

/// A range that is taken: its bus by the text, and its addresses.
#[derive(Clone, Copy, Debug, PartialEq, Eq)]
pub(crate) struct Placed {
    pub bus: u8,
    pub space: Space,
    pub span: Window,
}

/// What becomes of a device.
#[derive(Clone, Copy, Debug, PartialEq, Eq)]
pub enum DeviceFate {
    /// No bridge of the board leads to its bus.
    NoWay,
    /// It has no range on the board.
    NoRanges,
    /// Its bus has six targets.
    SixTargets,
    /// No device number is free.
    NoNumber,
    /// It is a target, with this device number.
    Target(u8),
}

/// All functions with one bus and device number, and what becomes of the registers of each, in
/// their order.
#[derive(Debug, Drop)]
pub struct Device {
    /// By the text.
    pub bus: u8,
    pub device: u8,
    pub fate: DeviceFate,
    pub functions: List<List<Judged>>,
}

impl fmt::Display for NoRange {
    fn fmt<W: fmt::Write>(&self, f: &mut fmt::Formatter<W>) -> fmt::Result {
        match self {
            NoRange::Flawed(flaw) => write!(f, "{flaw}"),
            NoRange::OfBridge => f.write_str("a bridge has no ranges here"),
            NoRange::Off => f.write_str("its decoding is off"),
            NoRange::PassesEnd => f.write_str("it passes the end of its space"),
            NoRange::SixRegisters => f.write_str("the target has its 6 base address registers"),
            NoRange::InNone(bus) => write!(f, "it is in no window of bridge {bus}"),
            NoRange::MeetsBridge(bus) => write!(f, "it meets a window of bridge {bus}"),
            NoRange::MeetsRange => f.write_str("it meets another range"),
        }
    }
}

use crate::{Name, Op};
use pci_command::{List, Space};

/// A range of byte addresses, of `size` bytes from `base` on.
#[derive(Clone, Copy, Debug, Default, PartialEq, Eq)]
pub struct Range {
    pub space: Space,
    pub base: u64,
    pub size: u64,
}

/// What a dword of a target holds before the first event. Words not named open as 0.
#[derive(Clone, Copy, Debug, Default, PartialEq, Eq)]
pub struct Opening {
    pub space: Space,
    pub address: u64,
    pub value: u32,
}

/// A target: the ranges that it claims, and how it answers.
#[derive(Debug, Drop)]
pub struct Target {
    pub name: Name,
    /// The bus that it is on.
    pub bus: u8,
    /// Its device number there, 0 to 31.
    pub device: u8,
    /// Its vendor and device identification (PCI Local Bus 2.2, section 6.2.1;
    /// section number from memory).
    pub vendor: u16,
    pub model: u16,
    /// How many accesses it meets with Retry before it answers: its stall tokens.
    pub stalls: u32,
    /// How many data phases of a write it takes before it disconnects, 1 to 8 (PCI Local Bus 2.2,
    /// section 3.3.3.2.1; section number from memory).
    pub burst: u8,
    pub ranges: List<Range>,
    /// Where it answers with Target-Abort.
    pub aborts: List<Range>,
    /// Of two opening words for one address the later holds.
    pub openings: List<Opening>,
}

/// A master and its program, which it presents in order.
#[derive(Debug, Drop)]
pub struct Master {
    pub name: Name,
    /// The bus that it is on.
    pub bus: u8,
    pub ops: List<Op>,
}

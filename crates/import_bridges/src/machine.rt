ghost use Rattle.std.specs.Prelude.{◌≡◌, ◌<◌, ◌≤◌, ◌^◌, filter, length};
ghost use Rattle.import_bridges.specs.Functions.{least, bus_of, least_domain, is_in, first_root};

use crate::header::{byte_at, is_bridge};
use import_text::Function;
use pci_command::{List, NoMemory};
use std::alloc::Global;

/// The bus from which on a machine is looked at.
#[derive(Clone, Copy, Debug, PartialEq, Eq)]
pub struct Root {
    pub domain: u32,
    pub bus: u8,
}

/// The functions of the root's domain.
#[derive(Debug, Drop)]
pub struct Machine {
    pub root: Root,
    /// How many functions there are in other domains.
    pub elsewhere: u64,
    /// The bridges by secondary bus, then by bus, device and function.
    pub bridges: List<Function>,
    /// All others by bus, device and function.
    pub others: List<Function>,
}

/// The machine of these functions, below a root.
pub fn machine_of(alloc: Global, root: Root, functions: &[Function]) -> Result<Machine, NoMemory> {
    let mut elsewhere = 0_u64;
    let mut bridges = Vec::new(alloc);
    let mut others = Vec::new(alloc);
    for function in functions {
        if function.slot.domain != root.domain {
            elsewhere = elsewhere.saturating_add(1);
        } else if is_bridge(function) {
            put_bridge(alloc, &mut bridges, function)?;
        } else {
            put_other(alloc, &mut others, function)?;
        }
    }
    Ok(Machine {
        root,
        elsewhere,
        bridges: List::from_vec(bridges),
        others: List::from_vec(others),
    })
}

/// The same function, in memory of its own.
fn copy_of(alloc: Global, function: &Function) -> Result<Function, NoMemory> {
    Ok(Function {
        line: function.line,
        slot: function.slot,
        name: List::from_vec(Vec::from_slice(alloc, function.name.as_slice())?),
        header: List::from_vec(Vec::from_slice(alloc, function.header.as_slice())?),
        sizes: function.sizes,
        kind: function.kind,
    })
}

/// Where no root is asked for: the least bus of the least domain.
pub fn first_root(functions: &[Function]) -> Root
    ensures { result ≡ first_root functions.now }
{
    let domain = least_domain(functions);
    Root {
        domain,
        bus: least_bus(domain, functions),
    }
}

fn least_domain(functions: &[Function]) -> u32
    ensures { result ≡ least_domain functions.now }
{
    let mut domain = u32::MAX;
    let mut left = functions;
    while let [function, behind @ ..] = left {
        domain = domain.min(function.slot.domain);
        left = behind;
    }
    domain
}

fn least_bus(domain: u32, functions: &[Function]) -> u8
    ensures { result ≡ least bus_of 255 (filter (is_in domain) functions.now) }
{
    let mut bus = u8::MAX;
    let mut left = functions;
    while let [function, behind @ ..] = left {
        if function.slot.domain == domain {
            bus = bus.min(function.slot.bus);
        }
        left = behind;
    }
    bus
}

fn slot_number(function: &Function) -> u32
    ensures { result < 2 ^ 24 }
{
    let bus = u32::from(function.slot.bus);
    let device = u32::from(function.slot.device);
    let number = u32::from(function.slot.function);
    bus * 0x1_0000 + device * 0x100 + number
}

fn bridge_number(function: &Function) -> u32 {
    u32::from(byte_at(function.header.as_slice(), 0x19)) * 0x100_0000 + slot_number(function)
}

fn put_bridge(
    alloc: Global,
    bridges: &mut Vec<Function>,
    function: &Function,
) -> Result<(), NoMemory> {
    let place = place_of_bridge(bridges.as_slice(), bridge_number(function));
    bridges.insert(place, copy_of(alloc, function)?)?;
    Ok(())
}

fn put_other(
    alloc: Global,
    others: &mut Vec<Function>,
    function: &Function,
) -> Result<(), NoMemory> {
    let place = place_of_other(others.as_slice(), slot_number(function));
    others.insert(place, copy_of(alloc, function)?)?;
    Ok(())
}

/// Before the first of those with a greater number.
fn place_of_bridge(bridges: &[Function], number: u32) -> usize
    ensures { result ≤ length bridges.now }
{
    bridges
        .iter()
        .position(|other| number < bridge_number(other))
        .unwrap_or(bridges.len())
}

fn place_of_other(others: &[Function], number: u32) -> usize
    ensures { result ≤ length others.now }
{
    others
        .iter()
        .position(|other| number < slot_number(other))
        .unwrap_or(others.len())
}

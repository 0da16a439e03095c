ghost use Rattle.std.specs.Prelude.{◌≡◌, ◌<◌, ◌≤◌, ◌+◌, ◌++◌, ◌^◌, option_to_list, length};
ghost use Rattle.import_targets.specs.Registers.{value_at, size_at, is_io, is_wide, low_base};
ghost use Rattle.import_targets.specs.Registers.{is_there, base_at, space_by, flaw_at, found_at};
ghost use Rattle.import_targets.specs.Registers.{behind, found_from, registers_of, found_in};

use arrayvec::ArrayVec;
use import_bridges::{header_type, register_4};
use import_text::Function;
use pci_command::Space;
use std::fmt;

/// Why a register tells of no range.
#[derive(Clone, Copy, Debug, PartialEq, Eq)]
pub enum Flaw {
    /// It is the last one, and wants an upper half.
    NoHalf,
    /// Its base is 0.
    NoAddress,
    /// The text does not tell its size.
    NoSize,
}

/// What a base address register asks for.
#[derive(Clone, Copy, Debug, Default, PartialEq, Eq)]
pub struct FoundFunction {
    /// The number of the register, from 0.
    pub number: u8,
    pub space: Space,
    pub base: u64,
    /// In bytes.
    pub size: Option<u64>,
    pub flaw: Option<Flaw>,
}

/// What the registers of a function ask for, in their order.
#[tactic(auto, unfolding(crate::specs::Registers::found_in))]
pub fn found_in(function: &Function) -> ArrayVec<FoundFunction, 6>
    ensures { result.items ≡ found_in function.now }
{
    let mut found = ArrayVec::new();
    push_from(&mut found, function, registers_of(function), 0, 6);
    found
}

/// Of so many registers those from this number on, in so many steps at most.
#[tactic(auto, using(crate::proofs::FoundLemmas::of_end))]
fn push_from(
    found: &mut ArrayVec<FoundFunction, 6>,
    function: &Function,
    many: u8,
    n: u8,
    steps: u8,
)
    requires few { many ≤ 6 }
    requires room { length found.old.items + steps ≤ 6 }
    ensures { found.new.items ≡ found.old.items ++ found_from steps function.now many n }
{
    if steps == 0 {
        return;
    }
    if n >= many {
        return;
    }
    push_found(found, found_at(function, many, n));
    push_from(found, function, many, behind(function, n), steps - 1);
}

fn push_found(found: &mut ArrayVec<FoundFunction, 6>, one: Option<FoundFunction>)
    requires { length found.old.items < 6 }
    ensures { found.new.items ≡ found.old.items ++ option_to_list one }
{
    if let Some(one) = one {
        found.push(one);
    }
}

fn registers_of(function: &Function) -> u8
    ensures value { result ≡ registers_of function.now }
    ensures few { result ≤ 6 }
{
    match header_type(function) {
        0 => 6,
        1 => 2,
        _ => 0,
    }
}

fn value_at(function: &Function, n: u8) -> u32
    ensures { result ≡ value_at function.now n }
{
    register_4(function.header.as_slice(), 16 + 4 * n as usize)
}

fn size_at(function: &Function, n: u8) -> Option<u64>
    ensures { result ≡ size_at function.now n }
{
    match function.sizes.get(n as usize) {
        Some(size) => *size,
        None => None,
    }
}

fn is_io(value: u32) -> bool
    ensures { result ≡ is_io value }
{
    value & 1 == 1
}

fn is_wide(value: u32) -> bool
    ensures { result ≡ is_wide value }
{
    !is_io(value) && (value >> 1) & 3 == 2
}

fn low_base(value: u32) -> u32
    ensures { result ≡ low_base value }
{
    if is_io(value) {
        (value >> 2) * 4
    } else {
        (value >> 4) * 16
    }
}

fn is_there(value: u32, size: Option<u64>) -> bool
    ensures { result ≡ is_there value size }
{
    !(value == 0 && size.is_none()) && value != 0xffff_ffff
}

fn base_at(function: &Function, many: u8, n: u8) -> u64
    requires { n < 6 }
    ensures { result ≡ base_at function.now many n }
{
    let value = value_at(function, n);
    let low = u64::from(low_base(value));
    if is_wide(value) && n + 1 < many {
        u64::from(value_at(function, n + 1)) * 0x1_0000_0000 + low
    } else {
        low
    }
}

fn flaw_at(function: &Function, many: u8, n: u8) -> Option<Flaw>
    requires { n < 6 }
    ensures { result ≡ flaw_at function.now many n }
{
    if is_wide(value_at(function, n)) && n + 1 >= many {
        return Some(Flaw::NoHalf);
    }
    if base_at(function, many, n) == 0 {
        return Some(Flaw::NoAddress);
    }
    match size_at(function, n) {
        None => Some(Flaw::NoSize),
        Some(_) => None,
    }
}

fn space_of(value: u32) -> Space
    ensures { result ≡ space_by value }
{
    if is_io(value) { Space::Io } else { Space::Mem }
}

fn found_at(function: &Function, many: u8, n: u8) -> Option<FoundFunction>
    requires { n < 6 }
    ensures { option_to_list result ≡ found_at function.now many n }
{
    let value = value_at(function, n);
    let size = size_at(function, n);
    if !is_there(value, size) {
        return None;
    }
    Some(FoundFunction {
        number: n,
        space: space_of(value),
        base: base_at(function, many, n),
        size,
        flaw: flaw_at(function, many, n),
    })
}

/// The next register that is none's upper half.
fn behind(function: &Function, n: u8) -> u8
    requires { n < 6 }
    ensures value { result ≡ behind function.now n }
    ensures further { n < result }
{
    if is_wide(value_at(function, n)) {
        n + 2
    } else {
        n + 1
    }
}

impl fmt::Display for Flaw {
    fn fmt<W: fmt::Write>(&self, f: &mut fmt::Formatter<W>) -> fmt::Result {
        match self {
            Flaw::NoHalf => f.write_str("its upper half is missing"),
            Flaw::NoAddress => f.write_str("it has no address"),
            Flaw::NoSize => f.write_str("its size is not told"),
        }
    }
}

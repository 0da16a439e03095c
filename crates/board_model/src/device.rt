//! The configuration registers of a target: PCI Local Bus Specification 2.2, chapter 6 (from
//! memory).
ghost use Rattle.std.specs.Prelude.{◌≡◌, ◌<◌, ◌≤◌, ◌+◌, ◌*◌, ◌^◌};
ghost use Rattle.std.specs.Prelude.{length, slice_index, if◌then◌else◌};
ghost use Rattle.board_model.specs.device.Registers.{opening_of, write_mask_of, byte_enabled};
ghost use Rattle.board_model.specs.device.Registers.{enabled_bits, merge_of, base_registers};
ghost use Rattle.board_model.specs.device.Registers.{all_base_registers, io_bit};

use crate::{Range, Target};
use pci_command::{Phase, Space};

/// What the register with that number (a dword each, from 0) of the target opens as.
pub fn opening(target: &Target, register: u8) -> u32
    ensures { result ≡ opening_of target.now register }
{
    match register {
        0 => identification(target.vendor, target.model),
        1 => 0x0000_0007,
        2 => 0xff00_0000,
        4..=9 => base_register(target.ranges.as_slice(), register - 4),
        _ => 0,
    }
}

fn identification(vendor: u16, model: u16) -> u32
    ensures { result ≡ 2 ^ 16 * model + vendor }
{
    u32::from(model) * 0x1_0000 + u32::from(vendor)
}

/// Which bits of a register a write changes.
pub fn write_mask(register: u8) -> u32
    ensures { result ≡ write_mask_of register }
{
    match register {
        1 => 0x0000_0007,
        3 | 15 => 0x0000_00ff,
        _ => 0,
    }
}

/// The dword after a data phase: its enabled bytes within the mask, and the rest of the old dword.
pub fn merge(old: u32, phase: &Phase, mask: u32) -> u32
    ensures { result ≡ merge_of old phase.now mask }
{
    let taken = enabled(phase.enables) & mask;
    (old & (0xffff_ffff - taken)) | (phase.value & taken)
}

fn enabled(enables: u8) -> u32
    ensures { result ≡ enabled_bits enables }
{
    let low = byte_bits(enables / 1 % 2 == 1, 0x0000_00ff)
        + byte_bits(enables / 2 % 2 == 1, 0x0000_ff00);
    let high = byte_bits(enables / 4 % 2 == 1, 0x00ff_0000)
        + byte_bits(enables / 8 % 2 == 1, 0xff00_0000);
    low + high
}

fn byte_bits(is_enabled: bool, bits: u32) -> u32
    ensures value { result ≡ (if is_enabled then bits else 0) }
    ensures fits { result ≤ bits }
{
    if is_enabled { bits } else { 0 }
}

/// The base address register with that number, from 0, of these ranges; 0 past the last.
fn base_register(ranges: &[Range], number: u8) -> u32
    ensures { result ≡ slice_index (all_base_registers ranges.now) number }
{
    match ranges.split_first() {
        None => 0,
        Some((range, rest)) => {
            let own = register_count(range);
            if number < own {
                register_of(range, number)
            } else {
                base_register(rest, number - own)
            }
        }
    }
}

fn register_count(range: &Range) -> u8
    ensures { result ≡ length (base_registers range.now) }
{
    if range.base < 0x1_0000_0000 { 1 } else { 2 }
}

fn register_of(range: &Range, number: u8) -> u32
    requires { number < length (base_registers range.now) }
    ensures { result ≡ slice_index (base_registers range.now) number }
{
    let low = (range.base & 0xffff_ffff) as u32;
    let high = (range.base >> 32) as u32;
    if high == 0 {
        low | space_bit(range.space)
    } else if number == 0 {
        low | 4
    } else {
        high
    }
}

fn space_bit(space: Space) -> u32
    ensures { result ≡ io_bit space }
{
    match space {
        Space::Io => 1,
        Space::Mem | Space::Cfg => 0,
    }
}

ghost use Rattle.std.specs.Prelude.{◌≡◌, ◌+◌, ◌/◌, ◌%◌, ◌^◌, ◌<◌, slice_set, if◌then◌else◌};
ghost use Rattle.board_model.specs.HeaderBytes.{header_bytes, bits, io_base, io_limit};
ghost use Rattle.board_model.specs.HeaderBytes.{io_base_upper, io_limit_upper, memory_base};
ghost use Rattle.board_model.specs.HeaderBytes.{memory_limit, is_wide, wide_bit};
ghost use Rattle.board_model.specs.HeaderBytes.{prefetchable_base, prefetchable_limit};
ghost use Rattle.board_model.specs.HeaderBytes.{prefetchable_base_upper};
ghost use Rattle.board_model.specs.HeaderBytes.{prefetchable_limit_upper, control_of};

use crate::{Bridge, Window};

/// The vendor that every bridge names.
const VENDOR: u16 = 0x1234;

/// The device that every bridge names.
const MODEL: u16 = 0x0100;

/// The command register: I/O space, memory space and bus master are enabled.
const ENABLED: u16 = 0x0007;

/// The bit of the bridge control register that says the master abort mode.
const MASTER_ABORT_MODE: u16 = 0x0020;

/// The 64 bytes of the header of a bridge: its buses, windows and master abort mode, with I/O
/// space, memory space and bus master enabled. A window shows in the bits that its registers have.
pub fn encode(bridge: &Bridge) -> [u8; 64]
    ensures { result ≡ header_bytes bridge.now }
{
    let mut bytes = [0; 64];
    put_2(&mut bytes, 0x00, VENDOR);
    put_2(&mut bytes, 0x02, MODEL);
    put_2(&mut bytes, 0x04, command());
    // The class of a PCI-to-PCI bridge, and header type 1.
    bytes[0x0a] = 0x04;
    bytes[0x0b] = 0x06;
    bytes[0x0e] = 0x01;
    bytes[0x18] = bridge.parent;
    bytes[0x19] = bridge.bus;
    bytes[0x1a] = bridge.last;
    bytes[0x1c] = io_base(bridge.io);
    bytes[0x1d] = io_limit(bridge.io);
    put_2(&mut bytes, 0x20, memory_base(bridge.mem));
    put_2(&mut bytes, 0x22, memory_limit(bridge.mem));
    put_2(&mut bytes, 0x24, prefetchable_base(bridge.pref));
    put_2(&mut bytes, 0x26, prefetchable_limit(bridge.pref));
    put_4(&mut bytes, 0x28, prefetchable_base_upper(bridge.pref));
    put_4(&mut bytes, 0x2c, prefetchable_limit_upper(bridge.pref));
    put_2(&mut bytes, 0x30, io_base_upper(bridge.io));
    put_2(&mut bytes, 0x32, io_limit_upper(bridge.io));
    put_2(&mut bytes, 0x3e, control(bridge.mode));
    bytes
}

fn put_2(bytes: &mut [u8; 64], offset: usize, register: u16)
    requires { offset + 1 < 64 }
    ensures { bytes.new ≡ slice_set (slice_set bytes.old offset (register % 2 ^ 8)) (offset + 1)
        (register / 2 ^ 8 % 2 ^ 8) }
{
    bytes[offset] = (register & 0xff) as u8;
    bytes[offset + 1] = (register >> 8) as u8;
}

fn put_4(bytes: &mut [u8; 64], offset: usize, register: u32)
    requires { offset + 3 < 64 }
    ensures { bytes.new
        ≡ slice_set (slice_set (slice_set (slice_set bytes.old offset (register % 2 ^ 8))
        (offset + 1) (register / 2 ^ 8 % 2 ^ 8)) (offset + 2) (register / 2 ^ 16 % 2 ^ 8))
        (offset + 3) (register / 2 ^ 16 / 2 ^ 8 % 2 ^ 8) }
{
    put_2(bytes, offset, (register & 0xffff) as u16);
    put_2(bytes, offset + 2, (register >> 16) as u16);
}

fn command() -> u16
    ensures { result ≡ 0x0007 }
{
    ENABLED
}

fn control(mode: bool) -> u16
    ensures { result ≡ control_of mode }
{
    if mode { MASTER_ABORT_MODE } else { 0 }
}

/// Bits 15 to 12 of an address: its 4 KiB within 64 KiB.
fn page(address: u64) -> u8
    ensures { result ≡ bits 12 4 address }
{
    ((address >> 12) & 0xf) as u8
}

/// Bits 31 to 20 of an address: its 1 MiB within 4 GiB.
fn megabyte(address: u64) -> u16
    ensures { result ≡ bits 20 12 address }
{
    ((address >> 20) & 0xfff) as u16
}

fn io_base(window: Option<Window>) -> u8
    ensures { result ≡ io_base window }
{
    window.map_or(0xf1, |window| 16 * page(window.base) + 1)
}

fn io_limit(window: Option<Window>) -> u8
    ensures { result ≡ io_limit window }
{
    window.map_or(0x01, |window| 16 * page(window.limit) + 1)
}

fn io_base_upper(window: Option<Window>) -> u16
    ensures { result ≡ io_base_upper window }
{
    window.map_or(0, |window| ((window.base >> 16) & 0xffff) as u16)
}

fn io_limit_upper(window: Option<Window>) -> u16
    ensures { result ≡ io_limit_upper window }
{
    window.map_or(0, |window| ((window.limit >> 16) & 0xffff) as u16)
}

fn memory_base(window: Option<Window>) -> u16
    ensures { result ≡ memory_base window }
{
    window.map_or(0xfff0, |window| 16 * megabyte(window.base))
}

fn memory_limit(window: Option<Window>) -> u16
    ensures { result ≡ memory_limit window }
{
    window.map_or(0x0000, |window| 16 * megabyte(window.limit))
}

/// 1 where the registers of a prefetchable window are 64-bit: where it reaches 2^32.
fn wide_bit(window: Window) -> u16
    ensures { result ≡ wide_bit window }
{
    u16::from(window.limit >= 0x1_0000_0000)
}

fn prefetchable_base(window: Option<Window>) -> u16
    ensures { result ≡ prefetchable_base window }
{
    window.map_or(
        0xfff0,
        |window| 16 * megabyte(window.base) + wide_bit(window),
    )
}

fn prefetchable_limit(window: Option<Window>) -> u16
    ensures { result ≡ prefetchable_limit window }
{
    window.map_or(
        0x0000,
        |window| 16 * megabyte(window.limit) + wide_bit(window),
    )
}

fn prefetchable_base_upper(window: Option<Window>) -> u32
    ensures { result ≡ prefetchable_base_upper window }
{
    window.map_or(0, |window| upper(window, window.base))
}

fn prefetchable_limit_upper(window: Option<Window>) -> u32
    ensures { result ≡ prefetchable_limit_upper window }
{
    window.map_or(0, |window| upper(window, window.limit))
}

fn upper(window: Window, address: u64) -> u32
    ensures { result ≡ (if is_wide window then bits 32 32 address else 0) }
{
    if window.limit >= 0x1_0000_0000 {
        (address >> 32) as u32
    } else {
        0
    }
}

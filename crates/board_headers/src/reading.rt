ghost use Rattle.std.specs.Prelude.{◌≡◌, ◌+◌, ◌^◌, ◌<◌, IsTrue, IfOk};
ghost use Rattle.board_model.specs.WellFormed.{is_window};
ghost use Rattle.board_model.specs.HeaderBytes.{register_2, register_4};
ghost use Rattle.board_headers.specs.Windows.{reading_of, windows_of, is_type_1, is_enabled};
ghost use Rattle.board_headers.specs.Windows.{has_refused_control, memory_window};
ghost use Rattle.board_headers.specs.Windows.{prefetchable_window, prefetchable_upper};
ghost use Rattle.board_headers.specs.Windows.{io_window, io_upper, window_between};
ghost use Rattle.board_headers.specs.Windows.{has_whole_windows, has_ordered_buses};

use crate::control::{BridgeControl, CommandBits};
use crate::{HeaderFault, Windows};
use bitflags::Flags;
use board_model::Window;

/// What the 64 bytes of a header say, or its first fault. Ignored is, as identification and class,
/// what is no bus number, no window register and no bit of the faults or the master abort mode.
pub fn decode(bytes: &[u8; 64]) -> Result<Windows, HeaderFault>
    ensures reading { result ≡ reading_of bytes.now }
    ensures ordered_buses { IfOk result (λ windows. IsTrue (has_ordered_buses windows)) }
    ensures whole_windows { IfOk result (λ windows. IsTrue (has_whole_windows windows)) }
{
    if !is_type_1(bytes) {
        return Err(HeaderFault::H1);
    }
    if !is_enabled(bytes) || has_refused_control(bytes) {
        return Err(HeaderFault::H2);
    }
    let windows = windows_of(bytes);
    if windows.has_ordered_buses() {
        Ok(windows)
    } else {
        Err(HeaderFault::H3)
    }
}

fn is_type_1(bytes: &[u8; 64]) -> bool
    ensures { result ≡ is_type_1 bytes.now }
{
    bytes[0x0e] & 0x7f == 1
}

#[tactic(auto, using(crate::proofs::BitLemmas::contained_bits))]
fn is_enabled(bytes: &[u8; 64]) -> bool
    ensures { result ≡ is_enabled bytes.now }
{
    let command = CommandBits::from_bits_retain(register_2(bytes, 0x04));
    command.contains(CommandBits::IO_SPACE)
        && command.contains(CommandBits::MEMORY_SPACE)
        && command.contains(CommandBits::BUS_MASTER)
}

#[tactic(auto, using(crate::proofs::BitLemmas::contained_bits))]
fn has_refused_control(bytes: &[u8; 64]) -> bool
    ensures { result ≡ has_refused_control bytes.now }
{
    let control = BridgeControl::from_bits_retain(register_2(bytes, 0x3e));
    control.contains(BridgeControl::ISA_ENABLE)
        || control.contains(BridgeControl::VGA_ENABLE)
        || control.contains(BridgeControl::SECONDARY_BUS_RESET)
}

#[tactic(auto, using(crate::proofs::BitLemmas::contained_bits))]
fn windows_of(bytes: &[u8; 64]) -> Windows
    ensures value { result ≡ windows_of bytes.now }
    ensures whole { IsTrue (has_whole_windows result) }
{
    let control = BridgeControl::from_bits_retain(register_2(bytes, 0x3e));
    Windows {
        primary: bytes[0x18],
        secondary: bytes[0x19],
        subordinate: bytes[0x1a],
        mem: memory_window(bytes),
        pref: prefetchable_window(bytes),
        io: io_window(bytes),
        mode: control.contains(BridgeControl::MASTER_ABORT_MODE),
    }
}

fn memory_window(bytes: &[u8; 64]) -> Option<Window>
    ensures value { result ≡ memory_window bytes.now }
    ensures whole { IsTrue (is_window (2 ^ 20) (2 ^ 32) result) }
{
    let base = u64::from(register_2(bytes, 0x20) >> 4);
    let limit = u64::from(register_2(bytes, 0x22) >> 4);
    window_between(base * 0x10_0000, limit * 0x10_0000 + 0xf_ffff)
}

fn prefetchable_window(bytes: &[u8; 64]) -> Option<Window>
    ensures value { result ≡ prefetchable_window bytes.now }
    ensures whole { IsTrue (is_window (2 ^ 20) (2 ^ 64) result) }
{
    let base_upper = u64::from(prefetchable_upper(bytes, 0x28));
    let limit_upper = u64::from(prefetchable_upper(bytes, 0x2c));
    let base = u64::from(register_2(bytes, 0x24) >> 4);
    let limit = u64::from(register_2(bytes, 0x26) >> 4);
    window_between(
        base_upper * 0x1_0000_0000 + base * 0x10_0000,
        limit_upper * 0x1_0000_0000 + limit * 0x10_0000 + 0xf_ffff,
    )
}

/// The upper half of a prefetchable base or limit.
fn prefetchable_upper(bytes: &[u8; 64], offset: usize) -> u32
    requires { offset + 3 < 64 }
    ensures { result ≡ prefetchable_upper bytes.now offset }
{
    let is_wide = bytes[0x24] & 0xf == 1;
    if is_wide {
        register_4(bytes, offset)
    } else {
        0
    }
}

fn io_window(bytes: &[u8; 64]) -> Option<Window>
    ensures value { result ≡ io_window bytes.now }
    ensures whole { IsTrue (is_window (2 ^ 12) (2 ^ 32) result) }
{
    let base_upper = u64::from(io_upper(bytes, 0x30));
    let limit_upper = u64::from(io_upper(bytes, 0x32));
    let base = u64::from(bytes[0x1c] >> 4);
    let limit = u64::from(bytes[0x1d] >> 4);
    window_between(
        base_upper * 0x1_0000 + base * 0x1000,
        limit_upper * 0x1_0000 + limit * 0x1000 + 0xfff,
    )
}

/// The upper half of an I/O base or limit.
fn io_upper(bytes: &[u8; 64], offset: usize) -> u16
    requires { offset + 1 < 64 }
    ensures { result ≡ io_upper bytes.now offset }
{
    let is_wide = bytes[0x1c] & 0xf == 1;
    if is_wide {
        register_2(bytes, offset)
    } else {
        0
    }
}

/// The window from a base to a limit; one whose limit lies below its base is closed.
pub fn window_between(base: u64, limit: u64) -> Option<Window>
    ensures { result ≡ window_between base limit }
{
    if base <= limit {
        Some(Window { base, limit })
    } else {
        None
    }
}

fn register_2(bytes: &[u8; 64], offset: usize) -> u16
    requires { offset + 1 < 64 }
    ensures { result ≡ register_2 bytes.now offset }
{
    u16::from(bytes[offset]) + u16::from(bytes[offset + 1]) * 0x100
}

fn register_4(bytes: &[u8; 64], offset: usize) -> u32
    requires { offset + 3 < 64 }
    ensures { result ≡ register_4 bytes.now offset }
{
    let low = u32::from(register_2(bytes, offset));
    let high = u32::from(register_2(bytes, offset + 2));
    low + high * 0x1_0000
}

ghost use Rattle.std.specs.Prelude.{◌≡◌, ◌<◌, ◌^◌, slice_index};
ghost use Rattle.board_model.specs.HeaderBytes.{register_2, register_4};
ghost use Rattle.import_bridges.specs.Functions.{header_type, is_bridge};
ghost use Rattle.import_bridges.specs.Decoding.{decodes};

use import_text::Function;
use pci_command::Space;

/// The byte at an offset, and 0 behind the end.
pub fn byte_at(header: &[u8], offset: usize) -> u8
    ensures { result ≡ slice_index header.now offset }
{
    header.get(offset).copied().unwrap_or(0)
}

/// The register of two bytes at an offset.
pub fn register_2(header: &[u8], offset: usize) -> u16
    requires { offset < 2 ^ 33 }
    ensures { result ≡ register_2 header.now offset }
{
    u16::from(byte_at(header, offset)) + u16::from(byte_at(header, offset + 1)) * 0x100
}

/// The register of four bytes at an offset.
pub fn register_4(header: &[u8], offset: usize) -> u32
    requires { offset < 2 ^ 32 }
    ensures { result ≡ register_4 header.now offset }
{
    let low = u32::from(register_2(header, offset));
    let high = u32::from(register_2(header, offset + 2));
    low + high * 0x1_0000
}

/// The kind of a header: 0 a device, 1 a bridge, 2 a CardBus bridge.
pub fn header_type(function: &Function) -> u8
    ensures { result ≡ header_type function.now }
{
    byte_at(function.header.as_slice(), 0x0e) & 0x7f
}

/// Whether the header is that of a bridge.
pub fn is_bridge(function: &Function) -> bool
    ensures { result ≡ is_bridge function.now }
{
    header_type(function) == 1
}

/// Whether the function decodes addresses of the space, by its command register.
pub fn decodes(space: Space, function: &Function) -> bool
    ensures { result ≡ decodes space function.now }
{
    let command = register_2(function.header.as_slice(), 0x04);
    match space {
        Space::Mem => (command >> 1) & 1 == 1,
        Space::Io => command & 1 == 1,
        Space::Cfg => false,
    }
}

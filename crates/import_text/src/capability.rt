ghost use Rattle.std.specs.Prelude.{◌≡◌};
ghost use Rattle.import_text.specs.Capabilities.{has_offset, kind_named, kind_behind, kind_of};

use crate::digits::{begins_with, behind, byte_at, hex_length};
use crate::region::indented;

/// What kind of PCI a function names among its capabilities.
#[derive(Clone, Copy, Debug, PartialEq, Eq)]
pub enum CapabilityKind {
    Express,
    PciX,
}

fn has_offset(text: &[u8]) -> bool
    ensures { result ≡ has_offset text.now }
{
    let digits = hex_length(text);
    (digits == 2 || digits == 3)
        && byte_at(text, digits) == b']'
        && byte_at(text, digits + 1) == b' '
}

fn kind_named(text: &[u8]) -> Option<CapabilityKind>
    ensures { result ≡ kind_named text.now }
{
    if begins_with(b"Express", text) {
        Some(CapabilityKind::Express)
    } else if begins_with(b"PCI-X", text) {
        Some(CapabilityKind::PciX)
    } else {
        None
    }
}

fn kind_behind(text: &[u8]) -> Option<CapabilityKind>
    ensures { result ≡ kind_behind text.now }
{
    if has_offset(text) {
        kind_named(behind(text, hex_length(text) + 2))
    } else {
        None
    }
}

/// The kind that a capability line names.
pub(crate) fn kind_of(line: &[u8]) -> Option<CapabilityKind>
    ensures { result ≡ kind_of line.now }
{
    let text = indented(line);
    if begins_with(b"Capabilities: [", text) {
        kind_behind(behind(text, 15))
    } else {
        None
    }
}

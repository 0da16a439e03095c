ghost use Rattle.std.specs.Prelude.{◌≡◌, IfOk};
ghost use Rattle.import_text.specs.Regions.{region_size};
ghost use Rattle.import_text.specs.Entries.{region_entry, entry_of};

use crate::capability::{CapabilityKind, kind_of};
use crate::region::{region_number, region_size};
use crate::row::{is_row, offset_of, row_bytes};
use crate::slot::{DeviceAddress, name_of, slot_of};
use pci_command::{List, NoMemory};
use std::alloc::Global;

/// What a line is.
#[derive(Debug, Drop)]
pub(crate) enum Entry {
    Slot(DeviceAddress, List<u8>),
    /// A row of sixteen bytes, and its offset.
    Row(u32, List<u8>),
    /// The number of a region, and its size.
    Region(u8, u64),
    Capability(CapabilityKind),
    Other,
}

/// What a line is, which has no newline and no carriage return.
pub(crate) fn entry_of(alloc: Global, line: &[u8]) -> Result<Entry, NoMemory>
    ensures { IfOk result (λ entry. entry ≡ entry_of line.now) }
{
    if let Some(place) = slot_of(line) {
        return Ok(Entry::Slot(place, name_of(alloc, line)?));
    }
    if is_row(line) {
        return Ok(Entry::Row(offset_of(line), row_bytes(alloc, line)?));
    }
    Ok(region_entry(line))
}

fn region_entry(line: &[u8]) -> Entry
    ensures { result ≡ region_entry (region_size line.now) line.now }
{
    if let Some(size) = region_size(line) {
        return Entry::Region(region_number(line), size);
    }
    match kind_of(line) {
        Some(kind) => Entry::Capability(kind),
        None => Entry::Other,
    }
}

ghost use Rattle.std.specs.Prelude.{◌≡◌, ◌<◌, ◌≤◌, ◌^◌, ◌+◌, length, IfOk, find};
ghost use Rattle.std.specs.Option.{option_copied};
ghost use Rattle.std.specs.List.{position_or_len};
ghost use Rattle.import_text.specs.Functions.{is_slot, is_row_at, is_region_of, is_capability};
ghost use Rattle.import_text.specs.Functions.{bytes_told, size_told, kind_told, row_at, header_in};
ghost use Rattle.import_text.specs.Functions.{size_of, sizes_in, kind_in, own_entries, function_of};
ghost use Rattle.import_text.specs.Functions.{functions_of};

use crate::DeviceAddress;
use crate::capability::CapabilityKind;
use crate::entry::Entry;
use pci_command::{List, NoMemory};
use std::alloc::{AllocError, Global};

/// A function of a machine.
#[derive(Debug, Drop)]
pub struct Function {
    /// The number of its slot line, from 1.
    pub line: u32,
    pub slot: DeviceAddress,
    /// Printing characters, at most 160.
    pub name: List<u8>,
    /// The first 64 bytes of its header, low byte first.
    pub header: List<u8>,
    /// The size of each region whose size is told.
    pub sizes: [Option<u64>; 6],
    /// What kind of PCI it names first among its capabilities.
    pub kind: Option<CapabilityKind>,
}

fn is_slot(entry: &Entry) -> bool
    ensures { result ≡ is_slot entry.now }
{
    matches!(entry, Entry::Slot(..))
}

fn is_row_at(offset: u32, entry: &Entry) -> bool
    ensures { result ≡ is_row_at offset entry.now }
{
    match entry {
        Entry::Row(at, _) => *at == offset,
        _ => false,
    }
}

fn is_region_of(number: u8, entry: &Entry) -> bool
    ensures { result ≡ is_region_of number entry.now }
{
    match entry {
        Entry::Region(of, _) => *of == number,
        _ => false,
    }
}

fn is_capability(entry: &Entry) -> bool
    ensures { result ≡ is_capability entry.now }
{
    matches!(entry, Entry::Capability(_))
}

fn find_row(offset: u32, entries: &[Entry]) -> Option<&Entry>
    ensures { option_copied result ≡ find (is_row_at offset) entries.now }
{
    entries.iter().find(|entry| is_row_at(offset, entry))
}

fn bytes_told(found: Option<&Entry>) -> &[u8]
    ensures { result.now ≡ bytes_told (option_copied found.entry) }
{
    match found {
        Some(Entry::Row(_, bytes)) => bytes.as_slice(),
        _ => &[],
    }
}

fn row_at(offset: u32, entries: &[Entry]) -> &[u8]
    ensures { result.now ≡ row_at offset entries.now }
{
    bytes_told(find_row(offset, entries))
}

fn find_region(number: u8, entries: &[Entry]) -> Option<&Entry>
    ensures { option_copied result ≡ find (is_region_of number) entries.now }
{
    entries.iter().find(|entry| is_region_of(number, entry))
}

fn size_told(found: Option<&Entry>) -> Option<u64>
    ensures { result ≡ size_told (option_copied found.entry) }
{
    match found {
        Some(Entry::Region(_, size)) => Some(*size),
        _ => None,
    }
}

fn size_of(number: u8, entries: &[Entry]) -> Option<u64>
    ensures { result ≡ size_of number entries.now }
{
    size_told(find_region(number, entries))
}

fn find_capability(entries: &[Entry]) -> Option<&Entry>
    ensures { option_copied result ≡ find is_capability entries.now }
{
    entries.iter().find(|entry| is_capability(entry))
}

fn kind_told(found: Option<&Entry>) -> Option<CapabilityKind>
    ensures { result ≡ kind_told (option_copied found.entry) }
{
    match found {
        Some(Entry::Capability(kind)) => Some(*kind),
        _ => None,
    }
}

fn kind_in(entries: &[Entry]) -> Option<CapabilityKind>
    ensures { result ≡ kind_in entries.now }
{
    kind_told(find_capability(entries))
}

fn header_in(alloc: Global, entries: &[Entry]) -> Result<List<u8>, AllocError>
    ensures { IfOk result (λ header. header ≡ header_in entries.now) }
{
    let mut header = Vec::new(alloc);
    header.extend_from_slice(row_at(0x00, entries))?;
    header.extend_from_slice(row_at(0x10, entries))?;
    header.extend_from_slice(row_at(0x20, entries))?;
    header.extend_from_slice(row_at(0x30, entries))?;
    Ok(List::from_vec(header))
}

fn sizes_in(entries: &[Entry]) -> [Option<u64>; 6]
    ensures { result ≡ sizes_in entries.now }
{
    [
        size_of(0, entries),
        size_of(1, entries),
        size_of(2, entries),
        size_of(3, entries),
        size_of(4, entries),
        size_of(5, entries),
    ]
}

fn length_before_slot(behind: &[Entry]) -> usize
    ensures value { result ≡ position_or_len is_slot behind.now }
    ensures within { result ≤ length behind.now }
{
    behind
        .iter()
        .position(|entry| is_slot(entry))
        .unwrap_or(behind.len())
}

fn own_entries(behind: &[Entry]) -> &[Entry]
    ensures { result.now ≡ own_entries behind.now }
{
    &behind[..length_before_slot(behind)]
}

fn function_of(
    alloc: Global,
    line: u32,
    slot: DeviceAddress,
    name: &[u8],
    own: &[Entry],
) -> Result<Function, AllocError>
    ensures { IfOk result (λ function. function ≡ function_of line slot name.now own.now) }
{
    Ok(Function {
        line,
        slot,
        name: List::from_vec(Vec::from_slice(alloc, name)?),
        header: header_in(alloc, own)?,
        sizes: sizes_in(own),
        kind: kind_in(own),
    })
}

/// The functions of which these lines tell.
pub(crate) fn functions_of(alloc: Global, entries: &[Entry]) -> Result<Vec<Function>, NoMemory>
    requires { length entries.now < 2 ^ 31 }
    ensures { IfOk result (λ functions. functions.items ≡ functions_of 1 entries.now) }
{
    let mut functions = Vec::new(alloc);
    let mut line = 1;
    let mut left = entries;
    while let [entry, behind @ ..] = left {
        if let Entry::Slot(slot, name) = entry {
            let own = own_entries(behind);
            functions.push(function_of(alloc, line, *slot, name.as_slice(), own)?)?;
        }
        line += 1;
        left = behind;
    }
    Ok(functions)
}

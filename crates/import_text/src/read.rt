ghost use Rattle.std.specs.Prelude.{◌≡◌, ◌<◌, ◌≤◌, ◌^◌, ◌+◌, [], length, IfOk};
ghost use Rattle.text_faults.specs.declared.or_no_memory.OrNoMemory.TheVariants.{Fault};
ghost use Rattle.import_text.specs.Functions.{repeated_after, lacks_row, lacking, has_high_device};
ghost use Rattle.import_text.specs.Functions.{high, functions_read, judged, Tells};

use crate::fault::ReadFault;
use crate::function::{Function, functions_of};
use crate::lines::entries_read;
use pci_command::{List, NoMemory};
use std::alloc::Global;
use std::collections::BTreeSet;
use text_faults::{AtLine, LspciFault};

/// The line of the first function that has the slot of one before.
fn repeated(alloc: Global, functions: &[Function]) -> Result<Option<u32>, NoMemory>
    ensures { IfOk result (λ line. line ≡ repeated_after [] functions.now) }
{
    let mut seen = BTreeSet::new(alloc);
    for function in functions {
        if !seen.insert(function.slot)? {
            return Ok(Some(function.line));
        }
    }
    Ok(None)
}

fn lacks_row(function: &Function) -> bool
    ensures { result ≡ lacks_row function.now }
{
    function.header.as_slice().len() != 64 // not a limit
}

/// The line of the first function without one of its four rows.
fn lacking(functions: &[Function]) -> Option<u32>
    ensures { result ≡ lacking functions.now }
{
    match functions.iter().find(|function| lacks_row(function)) {
        Some(function) => Some(function.line),
        None => None,
    }
}

fn has_high_device(function: &Function) -> bool
    ensures { result ≡ has_high_device function.now }
{
    function.slot.device > 31 // not a limit
}

/// The line of the first function with a device number that no bus has.
fn high(functions: &[Function]) -> Option<u32>
    ensures { result ≡ high functions.now }
{
    match functions.iter().find(|function| has_high_device(function)) {
        Some(function) => Some(function.line),
        None => None,
    }
}

/// The functions of which a text of `lspci -vvxxx` tells, in its order, or its first fault. A text
/// has fewer than 2^31 bytes.
pub fn read_functions(alloc: Global, text: &[u8]) -> Result<List<Function>, ReadFault>
    requires { length text.now < 2 ^ 31 }
    ensures { Tells result (functions_read text.now) }
{
    let entries = entries_read(alloc, text)?;
    let functions = functions_of(alloc, entries.as_slice())?;
    judged(alloc, entries.len() as u32, List::from_vec(functions))
}

fn judged(alloc: Global, lines: u32, functions: List<Function>) -> Result<List<Function>, ReadFault>
    requires { lines < 2 ^ 31 }
    ensures { Tells result (judged lines functions) }
{
    if functions.as_slice().is_empty() {
        return Err(fault_at(lines + 1, LspciFault::NoSlot));
    }
    if let Some(line) = repeated(alloc, functions.as_slice())? {
        return Err(fault_at(line, LspciFault::Repeated));
    }
    if let Some(line) = lacking(functions.as_slice()) {
        return Err(fault_at(line, LspciFault::NoRow));
    }
    if let Some(line) = high(functions.as_slice()) {
        return Err(fault_at(line, LspciFault::HighDevice));
    }
    Ok(functions)
}

fn fault_at(line: u32, fault: LspciFault) -> ReadFault
    ensures { result ≡ Fault (record { line = line; fault = fault }) }
{
    ReadFault::Fault(AtLine { line, fault })
}

//! The lines of devices, one after another.

ghost use Rattle.std.specs.Prelude.{◌≡◌, ◌+◌, ◌<◌, ◌≤◌, ◌^◌, ◌∷◌, [], ◌++◌, length, drop, codes};
ghost use Rattle.std.specs.Prelude.{IfOk};
ghost use Rattle.std.specs.List.{list_all};
ghost use Rattle.board_text.specs.Lines.{lines_of};
ghost use Rattle.dma_agents.specs.Adding.{Adds, line_added};
ghost use Rattle.dma_agents.specs.Made.{TellsMaking, owner_behind, flag_of, waits_behind, is_line};
ghost use Rattle.dma_agents.specs.Made.{is_blank, fault_behind, behind_end, said_by, with_draft};
ghost use Rattle.dma_agents.specs.Made.{line_read, lines_read};

use crate::add::{LineError, line_added};
use crate::forms::device_line;
use crate::marks::{is_faultless, is_one_word};
use crate::{DeviceLine, DeviceOwner, Flag, MakeFault, Waiting};
use board_parser::Sheet;
use board_statements::has_words;
use board_text::next_line;
use pci_command::{List, NoMemory};
use std::alloc::Global;
use text_faults::{DeviceFault, OrNoMemory};

/// What was read so far.
#[derive(Drop)]
pub struct Making {
    pub sheet: Sheet,
    /// Whose operations may follow.
    pub owner: DeviceOwner,
    /// The flags that are waited for, in the order of their lines.
    pub waits: List<Waiting>,
}

/// What is made behind all lines from this place on, the first of which has this number.
pub(crate) fn lines_read(
    alloc: Global,
    making: Making,
    bytes: &[u8],
    from: usize,
    first: u32,
) -> Result<Making, OrNoMemory<MakeFault>>
    requires short { length bytes.now < 2 ^ 31 }
    requires within { from ≤ length bytes.now + 1 }
    requires counted { first ≤ from + 1 }
    ensures { TellsMaking result (lines_read making first (lines_of (drop from bytes.now))) }
{
    let mut making = making;
    let mut number = first;
    let mut at = from;
    while let Some((line, next)) = next_line(bytes, at) {
        if is_end(line) && is_blank_from(bytes, next) {
            return Ok(behind_end(making, fault_behind(bytes, next, number + 1))?);
        }
        match line_read(alloc, making, number, line) {
            Ok(read) => making = read,
            Err(LineError::Fault(fault)) => {
                return Err(OrNoMemory::Fault(MakeFault::Device {
                    line: number,
                    fault,
                }));
            }
            Err(LineError::NoMemory) => return Err(OrNoMemory::NoMemory),
        }
        number += 1;
        at = next;
    }
    Err(OrNoMemory::Fault(misshapen(number)))
}

/// What is read, where no line past the last has a fault.
fn behind_end(making: Making, past: Option<u32>) -> Result<Making, MakeFault>
    ensures { result ≡ behind_end making past }
{
    match past {
        None => Ok(making),
        Some(line) => Err(misshapen(line)),
    }
}

ghost use Rattle.text_faults.specs.declared.device.DeviceFault.TheVariants.{Misshapen};
ghost use Rattle.dma_agents.specs.declared.fault.MakeFault.{MakeFault as Fault};

/// The line is none of its place.
pub(crate) fn misshapen(line: u32) -> MakeFault
    ensures { result ≡ Fault.Device line Misshapen }
{
    MakeFault::Device {
        line,
        fault: DeviceFault::Misshapen,
    }
}

fn line_read(alloc: Global, making: Making, number: u32, line: &[u8]) -> Result<Making, LineError>
    ensures { Adds result (line_read making number line.now) }
{
    match said_by(line) {
        Ok(Some(said)) => with_line(alloc, making, number, said),
        Ok(None) => Ok(making),
        Err(fault) => Err(LineError::Fault(fault)),
    }
}

/// What the line says, if it has words.
fn said_by(line: &[u8]) -> Result<Option<DeviceLine>, DeviceFault>
    ensures { result ≡ said_by line.now }
{
    if !is_faultless(line) {
        return Err(DeviceFault::Misshapen);
    }
    if !has_words(line) {
        return Ok(None);
    }
    match device_line(line) {
        Ok(said) => Ok(Some(said)),
        Err(_) => Err(DeviceFault::Misshapen),
    }
}

fn with_line(
    alloc: Global,
    making: Making,
    number: u32,
    line: DeviceLine,
) -> Result<Making, LineError>
    ensures { Adds result
        (with_draft making number line (line_added making.owner making.sheet line)) }
{
    let Making {
        sheet,
        owner,
        waits,
    } = making;
    let behind = owner_behind(owner, &line);
    let waits = waits_behind(waits, number, &line)?;
    let sheet = line_added(alloc, owner, sheet, line)?;
    Ok(Making {
        sheet,
        owner: behind,
        waits,
    })
}

fn owner_behind(owner: DeviceOwner, line: &DeviceLine) -> DeviceOwner
    ensures { result ≡ owner_behind owner line.now }
{
    match line {
        DeviceLine::Device { .. } => DeviceOwner::Device,
        DeviceLine::Handler { .. } => DeviceOwner::Handler,
        _ => owner,
    }
}

fn waits_behind(
    waits: List<Waiting>,
    number: u32,
    line: &DeviceLine,
) -> Result<List<Waiting>, NoMemory>
    ensures { IfOk result (λ behind. behind ≡ waits_behind waits number (flag_of line.now)) }
{
    match flag_of(line) {
        None => Ok(waits),
        Some(flag) => {
            let mut items = waits.into_vec();
            items.push(Waiting { line: number, flag })?;
            Ok(List::from_vec(items))
        }
    }
}

fn flag_of(line: &DeviceLine) -> Option<Flag>
    ensures { result ≡ flag_of line.now }
{
    match line {
        DeviceLine::Device { bell: flag, .. }
        | DeviceLine::Handler { wait: flag, .. }
        | DeviceLine::Waits(flag) => Some(*flag),
        _ => None,
    }
}

fn is_end(line: &[u8]) -> bool
    ensures { result ≡ is_line (codes "end" ∷ []) line.now }
{
    is_one_word(line, b"end")
}

fn is_blank_from(bytes: &[u8], from: usize) -> bool
    requires within { from ≤ length bytes.now + 1 }
    ensures { result ≡ list_all is_blank (lines_of (drop from bytes.now)) }
{
    let mut at = from;
    while let Some((line, next)) = next_line(bytes, at) {
        if has_words(line) {
            return false;
        }
        at = next;
    }
    true
}

fn fault_behind(bytes: &[u8], from: usize, first: u32) -> Option<u32>
    requires short { length bytes.now < 2 ^ 31 }
    requires within { from ≤ length bytes.now + 1 }
    requires counted { first ≤ from + 1 }
    ensures { result ≡ fault_behind first (lines_of (drop from bytes.now)) }
{
    let mut number = first;
    let mut at = from;
    while let Some((line, next)) = next_line(bytes, at) {
        if !is_faultless(line) {
            return Some(number);
        }
        number += 1;
        at = next;
    }
    None
}

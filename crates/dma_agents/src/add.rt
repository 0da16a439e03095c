//! What a line of devices adds to the sheet of a board.

ghost use Rattle.std.specs.Prelude.{◌≡◌, Ok, Err, ◌∷◌, [], Some, Result, not, if◌then◌else◌};
ghost use Rattle.board_parser.specs.declared.draft.draft.Draft.{Draft};
ghost use Rattle.board_parser.specs.draft.Drafts.{board_of};
ghost use Rattle.board_parser.specs.draft.Masters.{add_master};
ghost use Rattle.board_parser.specs.draft.Steps.{Answers};
ghost use Rattle.text_faults.specs.declared.board_line.LineFault.{LineFault};
ghost use Rattle.text_faults.specs.declared.device.DeviceFault.TheVariants.{Misplaced};
ghost use Rattle.dma_agents.specs.Put.{cut};
ghost use Rattle.dma_agents.specs.Adding.{Adds, stands, is_placed, poll_of, read_of, write_of};
ghost use Rattle.dma_agents.specs.Adding.{limited, add_one, add_ops, begins, begins_on, bus_of};
ghost use Rattle.dma_agents.specs.Adding.{bus_there, added, line_added};

use crate::{DeviceLine, DeviceOwner, Flag, Put, cut};
use board_model::{Name, Op, Want};
use board_parser::{AddFault, Sheet};
use board_statements::Statement;
use pci_command::{Command, NoMemory, Phase, Phases, Space};
use std::alloc::Global;
use text_faults::{DeviceFault, OrNoMemory};

/// Why a line adds nothing: its first fault.
pub(crate) type LineError = OrNoMemory<DeviceFault>;

/// The sheet behind a line, or its first fault.
pub(crate) fn line_added(
    alloc: Global,
    owner: DeviceOwner,
    sheet: Sheet,
    line: DeviceLine,
) -> Result<Sheet, LineError>
    ensures { Adds result (line_added owner sheet line) }
{
    if stands(owner, &line) {
        placed_added(alloc, sheet, line)
    } else {
        Err(LineError::Fault(DeviceFault::Misshapen))
    }
}

/// The sheet behind a line that stands behind its device or handler.
fn placed_added(alloc: Global, sheet: Sheet, line: DeviceLine) -> Result<Sheet, LineError>
    ensures { Adds result (if not (is_placed line) then Err Misplaced else added sheet line) }
{
    if is_placed(&line) {
        added(alloc, sheet, line)
    } else {
        Err(LineError::Fault(DeviceFault::Misplaced))
    }
}

fn stands(owner: DeviceOwner, line: &DeviceLine) -> bool
    ensures { result ≡ stands owner line.now }
{
    match line {
        DeviceLine::Device { .. } | DeviceLine::Handler { .. } => true,
        DeviceLine::Puts(_) | DeviceLine::Gets(_) | DeviceLine::Sends { .. } => {
            matches!(owner, DeviceOwner::Device)
        }
        DeviceLine::Looks(_) => matches!(owner, DeviceOwner::Handler),
        DeviceLine::Waits(_) | DeviceLine::Writes { .. } => !matches!(owner, DeviceOwner::Nobody),
    }
}

fn is_placed(line: &DeviceLine) -> bool
    ensures { result ≡ is_placed line.now }
{
    match line {
        DeviceLine::Device { bell: flag, .. } | DeviceLine::Handler { wait: flag, .. } => {
            flag.address % 4 == 0
        }
        DeviceLine::Waits(flag) => flag.address % 4 == 0,
        DeviceLine::Puts(put) => { u64::from(put.address) + u64::from(put.length) <= 0x1_0000_0000 }
        DeviceLine::Gets(address) | DeviceLine::Looks(address) => *address % 4 == 0,
        DeviceLine::Sends { address, .. } | DeviceLine::Writes { address, .. } => *address % 4 == 0,
    }
}

fn added(alloc: Global, sheet: Sheet, line: DeviceLine) -> Result<Sheet, LineError>
    ensures { Adds result (added sheet line) }
{
    match line {
        DeviceLine::Device { name, target, bell } => {
            let bus = bus_of(&sheet, target);
            begins(alloc, sheet, name, bus, poll_of(bell))
        }
        DeviceLine::Handler { name, bus, wait } => {
            let bus = bus_there(&sheet, bus);
            begins(alloc, sheet, name, bus, poll_of(wait))
        }
        DeviceLine::Puts(put) => add_put(alloc, sheet, put),
        DeviceLine::Gets(address) | DeviceLine::Looks(address) => {
            add_one(alloc, sheet, read_of(address))
        }
        DeviceLine::Sends { address, message } => {
            add_one(alloc, sheet, write_of(address, message))
        }
        DeviceLine::Waits(flag) => add_one(alloc, sheet, poll_of(flag)),
        DeviceLine::Writes { address, value } => add_one(alloc, sheet, write_of(address, value)),
    }
}

fn bus_of(sheet: &Sheet, target: Option<Name>) -> Option<u8>
    ensures { result ≡ bus_of (board_of sheet.now) target }
{
    match target {
        None => None,
        Some(name) => sheet.bus_of_target(&name),
    }
}

fn bus_there(sheet: &Sheet, bus: u8) -> Option<u8>
    ensures { result ≡ bus_there (board_of sheet.now) bus }
{
    if sheet.has_bus(bus) { Some(bus) } else { None }
}

/// A master of this name on this bus, with its first operation.
fn begins(
    alloc: Global,
    sheet: Sheet,
    name: Option<Name>,
    bus: Option<u8>,
    poll: Op,
) -> Result<Sheet, LineError>
    ensures { Adds result (begins sheet name bus poll) }
{
    match name {
        Some(name) => begins_as(alloc, sheet, name, bus, poll),
        None => Err(LineError::Fault(DeviceFault::NameUsed)),
    }
}

/// Under this name, where it is not used already.
fn begins_as(
    alloc: Global,
    sheet: Sheet,
    name: Name,
    bus: Option<u8>,
    poll: Op,
) -> Result<Sheet, LineError>
    ensures { Adds result (begins sheet (Some name) bus poll) }
{
    if sheet.has_name(&name) {
        Err(LineError::Fault(DeviceFault::NameUsed))
    } else {
        begins_on(alloc, sheet, name, bus, poll)
    }
}

/// On this bus, where it is there.
fn begins_on(
    alloc: Global,
    sheet: Sheet,
    name: Name,
    bus: Option<u8>,
    poll: Op,
) -> Result<Sheet, LineError>
    ensures { Adds result (begins_on sheet name bus poll) }
{
    match bus {
        Some(bus) => begin(alloc, sheet, name, bus, poll),
        None => Err(LineError::Fault(DeviceFault::NotThere)),
    }
}

fn begin(alloc: Global, sheet: Sheet, name: Name, bus: u8, poll: Op) -> Result<Sheet, LineError>
    ensures { Adds result (begins_on sheet name (Some bus) poll) }
{
    let sheet = add_master(alloc, sheet, name, bus)?;
    add_one(alloc, sheet, poll)
}

fn add_master(alloc: Global, sheet: Sheet, name: Name, bus: u8) -> Result<Sheet, LineError>
    ensures { Adds result (limited (add_master sheet.wide (board_of sheet) name bus)) }
{
    limited(sheet.add(alloc, Statement::NewMaster { name, bus }))
}

fn add_one(alloc: Global, sheet: Sheet, op: Op) -> Result<Sheet, LineError>
    ensures { Adds result (add_one sheet op) }
{
    limited(sheet.add(
        alloc,
        Statement::Does {
            op,
            too_many: false,
        },
    ))
}

// A limit of the board is the only fault that is left.
fn limited(added: Result<Sheet, AddFault>) -> Result<Sheet, LineError>
    ensures { (expected : Result Draft LineFault) → Answers added expected →
        Adds result (limited expected) }
{
    match added {
        Ok(sheet) => Ok(sheet),
        Err(AddFault::Fault(_)) => Err(LineError::Fault(DeviceFault::OverLimit)),
        Err(AddFault::NoMemory) => Err(LineError::NoMemory),
    }
}

fn add_put(alloc: Global, sheet: Sheet, put: Put) -> Result<Sheet, LineError>
    ensures { Adds result (add_ops sheet (cut put)) }
{
    match cut(alloc, put) {
        Ok(ops) => add_ops(alloc, sheet, ops.into_vec()),
        Err(NoMemory) => Err(LineError::NoMemory),
    }
}

fn add_ops(alloc: Global, mut sheet: Sheet, mut ops: Vec<Op>) -> Result<Sheet, LineError>
    ensures { Adds result (add_ops sheet ops.items) }
{
    while !ops.is_empty() {
        let op = ops.remove(0);
        sheet = add_one(alloc, sheet, op)?;
    }
    Ok(sheet)
}

fn poll_of(flag: Flag) -> Op
    ensures { result ≡ poll_of flag }
{
    Op::Poll {
        space: Space::Mem,
        address: u64::from(flag.address),
        want: Want {
            mask: 0xffff_ffff,
            wanted: flag.value,
            differs: false,
        },
        tries: flag.tries,
    }
}

fn read_of(address: u32) -> Op
    ensures { result ≡ read_of address }
{
    Op::Read {
        command: Command::MemRead,
        address: u64::from(address),
    }
}

fn write_of(address: u32, value: u32) -> Op
    ensures { result ≡ write_of address value }
{
    let mut phases = Phases::new();
    phases.push(Phase { value, enables: 15 });
    Op::Write {
        command: Command::MemWrite,
        address: u64::from(address),
        phases,
    }
}

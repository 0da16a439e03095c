ghost use Rattle.std.specs.Prelude.{◌≡◌, [], ◌∷◌};
ghost use Rattle.std.specs.Option.{option_map};
ghost use Rattle.board_model.specs.Requests.{op_of, tries_of, read_in, read_phases};
ghost use Rattle.board_model.specs.Requests.{configuration_address, command_of, address_on};
ghost use Rattle.board_model.specs.Requests.{phases_of, request_on, request_of, is_posted};

use crate::{Board, Op};
use pci_command::{Command, OpId, Phase, Phases, Request, Space};

/// The request of an operation as driven on the bus. There is none exactly where the operation is
/// not there: its master, its index or its try.
pub fn request_of(board: &Board, op: OpId, bus: u8) -> Option<Request>
    ensures { result ≡ request_of board.now op bus }
{
    let found = op_of(board, op)?;
    Some(request_on(found, bus))
}

/// The operation that a name names; none exactly where its master, index or try is not there.
pub fn op_of(board: &Board, op: OpId) -> Option<&Op>
    ensures { option_map (λ found. found.now) result ≡ op_of board.now op }
{
    let master = board.masters.as_slice().get(op.master as usize)?;
    let found = master.ops.as_slice().get(op.index as usize)?;
    if op.attempt < tries_of(found) {
        Some(found)
    } else {
        None
    }
}

/// Whether it is a posted write: a write in memory is posted, every other request is delayed.
pub fn is_posted(request: &Request) -> bool
    ensures { result ≡ is_posted request.now }
{
    request.command.code() == Command::MemWrite.code()
}

/// How often an operation may be tried: a poll its tries, any other once.
pub fn tries_of(op: &Op) -> u32
    ensures { result ≡ tries_of op.now }
{
    match op {
        Op::Poll { tries, .. } => *tries,
        _ => 1,
    }
}

/// The request of an operation as driven on the bus.
pub fn request_on(op: &Op, bus: u8) -> Request
    ensures { result ≡ request_on op.now bus }
{
    Request {
        command: command_of(op),
        address: address_on(op, bus),
        phases: phases_of(op),
    }
}

fn command_of(op: &Op) -> Command
    ensures { result ≡ command_of op.now }
{
    match op {
        Op::Read { command, .. } | Op::Write { command, .. } => command.plain(),
        Op::CfgRead { .. } => Command::CfgRead,
        Op::CfgWrite { .. } => Command::CfgWrite,
        Op::Poll { space, .. } => read_in(*space),
    }
}

fn read_in(space: Space) -> Command
    ensures { result ≡ read_in space }
{
    match space {
        Space::Mem => Command::MemRead,
        Space::Io => Command::IoRead,
        Space::Cfg => Command::CfgRead,
    }
}

fn address_on(op: &Op, on: u8) -> u64
    ensures { result ≡ address_on op.now on }
{
    match op {
        Op::Read { address, .. } | Op::Write { address, .. } | Op::Poll { address, .. } => *address,
        Op::CfgRead {
            bus,
            device,
            register,
        } => configuration_address(on, *bus, *device, *register),
        Op::CfgWrite {
            bus,
            device,
            register,
            ..
        } => configuration_address(on, *bus, *device, *register),
    }
}

/// Of type 0 on the bus that is named, of type 1 on any other (PCI Local Bus 2.2, section 3.2.2.3;
/// section number from memory).
fn configuration_address(on: u8, bus: u8, device: u8, register: u8) -> u64
    ensures { result ≡ configuration_address on bus device register }
{
    let of_device = 0x800 * u64::from(device) + 4 * u64::from(register);
    if on == bus {
        of_device
    } else {
        0x1_0000 * u64::from(bus) + of_device + 1
    }
}

fn phases_of(op: &Op) -> Phases
    ensures { result ≡ phases_of op.now }
{
    match op {
        Op::Write { phases, .. } => phases.copy(),
        Op::CfgWrite { phase, .. } => one_phase(*phase),
        Op::Read { .. } | Op::CfgRead { .. } | Op::Poll { .. } => one_phase(Phase {
            value: 0,
            enables: 15,
        }),
    }
}

fn one_phase(phase: Phase) -> Phases
    ensures { result ≡ phase ∷ [] }
{
    let mut phases = Phases::new();
    phases.push(phase);
    phases
}

ghost use Rattle.std.specs.Prelude.{◌≡◌, length};
ghost use Rattle.std.specs.List.{list_all};
ghost use Rattle.board_model.specs.WellFormed.{is_within, read_space, write_space};
ghost use Rattle.board_model.specs.WellFormed.{is_well_formed_phase, is_well_formed_read};
ghost use Rattle.board_model.specs.WellFormed.{is_burst_in, is_well_formed_write};
ghost use Rattle.board_model.specs.WellFormed.{is_well_formed_op, is_well_formed_master};

use crate::agents::is_dword_in;
use board_model::{MOST_DWORDS, MOST_OPS, MOST_TRIES, Master, Op};
use pci_command::{Command, Phase, Space};

pub(crate) fn are_masters_well_formed(masters: &[Master]) -> bool
    ensures { result ≡ list_all is_well_formed_master masters.now }
{
    masters.iter().all(|master| is_master_well_formed(master))
}

fn is_master_well_formed(master: &Master) -> bool
    ensures { result ≡ is_well_formed_master master.now }
{
    let ops = master.ops.as_slice();
    ops.len() <= MOST_OPS && are_ops_well_formed(ops)
}

fn are_ops_well_formed(ops: &[Op]) -> bool
    ensures { result ≡ list_all is_well_formed_op ops.now }
{
    ops.iter().all(|op| is_op_well_formed(op))
}

fn is_op_well_formed(op: &Op) -> bool
    ensures { result ≡ is_well_formed_op op.now }
{
    match op {
        Op::Read { command, address } => is_read_well_formed(*address, read_space(*command)),
        Op::Write {
            command,
            address,
            phases,
        } => is_write_well_formed(*address, phases.as_slice(), write_space(*command)),
        Op::CfgRead {
            device,
            register,
            ..
        } => *device <= 31 && *register <= 63,
        Op::CfgWrite {
            device,
            register,
            phase,
            ..
        } => *device <= 31 && *register <= 63 && phase.enables <= 15,
        Op::Poll {
            space,
            address,
            tries,
            ..
        } => is_dword_in(*space, *address) && 1 <= *tries && *tries <= MOST_TRIES,
    }
}

fn read_space(command: Command) -> Option<Space>
    ensures { result ≡ read_space command }
{
    match command {
        Command::IoRead => Some(Space::Io),
        Command::MemRead | Command::MemReadMultiple | Command::MemReadLine => Some(Space::Mem),
        _ => None,
    }
}

fn write_space(command: Command) -> Option<Space>
    ensures { result ≡ write_space command }
{
    match command {
        Command::IoWrite => Some(Space::Io),
        Command::MemWrite | Command::MemWriteInvalidate => Some(Space::Mem),
        _ => None,
    }
}

fn is_read_well_formed(address: u64, space: Option<Space>) -> bool
    ensures { result ≡ is_well_formed_read address space }
{
    match space {
        None => false,
        Some(space) => is_dword_in(space, address),
    }
}

fn is_write_well_formed(address: u64, phases: &[Phase], space: Option<Space>) -> bool
    ensures { result ≡ is_well_formed_write address phases.now space }
{
    match space {
        None => false,
        Some(space) => {
            is_dword_in(space, address)
                && is_burst_in(space, address, phases.len())
                && are_phases_well_formed(phases)
        }
    }
}

/// Dwords in one aligned block of 64 bytes of memory, few enough for a burst; one in I/O space.
fn is_burst_in(space: Space, address: u64, phases: usize) -> bool
    ensures { result ≡ is_burst_in space address phases }
{
    match space {
        Space::Mem => {
            1 <= phases && phases <= MOST_DWORDS && address % 64 + 4 * phases as u64 <= 64
        }
        Space::Io => phases == 1,
        Space::Cfg => false,
    }
}

fn are_phases_well_formed(phases: &[Phase]) -> bool
    ensures { result ≡ list_all is_well_formed_phase phases.now }
{
    phases.iter().all(|phase| phase.enables <= 15)
}

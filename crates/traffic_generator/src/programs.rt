ghost use Rattle.std.specs.Prelude.{◌≡◌, ◌<◌, ◌^◌, ◌++◌, IfOk, OnOk};
ghost use Rattle.traffic_generator.specs.Generated.{block, words_in, round, round_drawn, program};
ghost use Rattle.traffic_generator.specs.Generated.{program_drawn};

use crate::draws::Draws;
use board_model::Op;
use pci_command::{Command, List, NoMemory};
use std::alloc::Global;

/// The targets of a master's rounds, by where their ranges begin.
#[derive(Clone, Copy)]
pub(crate) struct Aims {
    /// Blocks of it are written, and read back.
    pub(crate) first: u32,
    /// Blocks of it are read.
    pub(crate) second: u32,
}

/// A program of so many rounds, each a write of a block, a read of the same, and a read of a block
/// of the other target.
pub(crate) fn program(
    alloc: Global,
    draws: &mut Draws,
    rounds: u16,
    aims: Aims,
) -> Result<List<Op>, NoMemory>
    ensures value { IfOk result
        (λ ops. ops ≡ program aims.first aims.second rounds draws.old.state) }
    ensures state { OnOk result (draws.new.state ≡ program_drawn rounds draws.old.state) }
{
    let mut ops = Vec::new(alloc);
    for _round in 0..rounds {
        push_round(&mut ops, draws, aims)?;
    }
    Ok(List::from_vec(ops))
}

fn push_round(ops: &mut Vec<Op>, draws: &mut Draws, aims: Aims) -> Result<(), NoMemory>
    ensures value { OnOk result
        (ops.new.items ≡ ops.old.items ++ round aims.first aims.second draws.old.state) }
    ensures state { OnOk result (draws.new.state ≡ round_drawn draws.old.state) }
{
    let address = block(aims.first, draws.draw());
    let count = 1 + (draws.draw() % 8) as u8;
    let phases = draws.words(count);
    ops.push(Op::Write {
        command: Command::MemWrite,
        address,
        phases,
    })?;
    ops.push(read_of(address))?;
    ops.push(read_of(block(aims.second, draws.draw())))?;
    Ok(())
}

/// Where the block of 64 bytes begins that a draw names, in the range from an address on.
fn block(base: u32, drawn: u16) -> u64
    ensures { result ≡ block base drawn }
{
    u64::from(base) + 64 * u64::from(drawn % 64)
}

fn read_of(address: u64) -> Op
    ensures { result ≡ Op.Read Command.MemRead address }
{
    Op::Read {
        command: Command::MemRead,
        address,
    }
}

ghost use Rattle.std.specs.Prelude.{◌≡◌, ℕ, ◌&&◌, ◌==◌, IfOk, OnOk};
ghost use Rattle.std.specs.List.{AllByRecursion, Contains};
ghost use Rattle.board_model.specs.Claims.{is_type_0, device_in};
ghost use Rattle.board_model.specs.Ways.{address_in};
ghost use Rattle.bus_targets.specs.Reads.{answers_at, KnowsRead, KnowsProgram, StillThere};

use board_model::{Board, Op, Target, is_in_ranges, request_on};
use machine_steps::dword_address;
use pci_command::{NoMemory, Space};
use std::alloc::Global;

/// The addresses of the space at which operations read the target, some of them more than once.
pub(crate) fn addresses_read(
    alloc: Global,
    board: &Board,
    target: &Target,
    space: Space,
) -> Result<Vec<u64>, NoMemory>
    ensures { IfOk result (λ addresses.
        AllByRecursion (KnowsProgram target.now space addresses.items) board.now.masters) }
{
    let mut addresses = Vec::new(alloc);
    for master in board.masters.as_slice() {
        push_reads(&mut addresses, target, space, master.ops.as_slice())?;
    }
    Ok(addresses)
}

fn push_reads(
    addresses: &mut Vec<u64>,
    target: &Target,
    space: Space,
    ops: &[Op],
) -> Result<(), NoMemory>
    ensures stays { OnOk result (StillThere addresses.old.items addresses.new.items) }
    ensures reads { OnOk result
        (AllByRecursion (KnowsRead target.now space addresses.new.items) ops.now) }
{
    for op in ops {
        push_read(addresses, target, space, op)?;
    }
    Ok(())
}

/// The address at which the operation reads the target, if it does.
fn push_read(
    addresses: &mut Vec<u64>,
    target: &Target,
    space: Space,
    op: &Op,
) -> Result<(), NoMemory>
    ensures stays { OnOk result (StillThere addresses.old.items addresses.new.items) }
    ensures reads { OnOk result (KnowsRead target.now space addresses.new.items op.now) }
{
    let request = request_on(op, target.bus);
    let is_read_of_space = request.command.is_read() && request.command.space() == space;
    if is_read_of_space && answers_at(target, space, request.address) {
        addresses.push(dword_address(space, u128::from(request.address)) as u64)?;
    }
    Ok(())
}

/// Whether the target answers at the address of the space on its bus, if no target before it does.
fn answers_at(target: &Target, space: Space, address: u64) -> bool
    ensures { result ≡ answers_at target.now space address }
{
    match space {
        Space::Mem | Space::Io => {
            is_in_ranges(target.ranges.as_slice(), space, u128::from(address))
        }
        Space::Cfg => address % 4 == 0 && u64::from(target.device) == address / 0x800 % 32,
    }
}

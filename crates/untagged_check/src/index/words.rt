ghost use Rattle.std.specs.Prelude.{◌≡◌, ◌≤◌, ◌^◌, [], ◌∷◌, OnOk, Some};
ghost use Rattle.board_model.specs.Ways.{words_of, words_at, dwords_from};
ghost use Rattle.board_tree.specs.Decodable.{IsDecodable};
ghost use Rattle.history_model.specs.Knowledge.{is_write, words_named};
ghost use Rattle.untagged_check.specs.index.Kept.{dwords_written, Writes};

use crate::index::entry::Write;
use crate::index::index::WriteIndex;
use board_model::{Board, Op, Place, Target, Word, is_in_ranges, op_of, request_on};
use board_tree::route_of;
use machine_steps::{dword_address, is_write};
use pci_command::{NoMemory, OpId, Phase, Request};
use std::alloc::Global;

/// Each dword that the operation writes gets it: none does where it reads.
pub(crate) fn put_write(
    writes: &mut WriteIndex,
    alloc: Global,
    board: &Board,
    write: Write,
) -> Result<(), NoMemory>
    requires { IsDecodable board.now }
    ensures { OnOk result (Writes write (dwords_written board.now write.op) writes.old writes.new) }
{
    if is_write(board, write.op) {
        put_named(writes, alloc, board, write)
    } else {
        Ok(())
    }
}

/// Each dword that the operation names gets it.
fn put_named(
    writes: &mut WriteIndex,
    alloc: Global,
    board: &Board,
    write: Write,
) -> Result<(), NoMemory>
    requires { IsDecodable board.now }
    ensures { OnOk result (Writes write (words_named board.now write.op) writes.old writes.new) }
{
    match op_of(board, write.op) {
        Some(found) => match board.masters.as_slice().get(write.op.master as usize) {
            Some(master) => put_from(writes, alloc, board, found, master.bus, write),
            None => Ok(()),
        },
        None => Ok(()),
    }
}

/// The same of an operation from the bus on.
fn put_from(
    writes: &mut WriteIndex,
    alloc: Global,
    board: &Board,
    op: &Op,
    bus: u8,
    write: Write,
) -> Result<(), NoMemory>
    requires { IsDecodable board.now }
    ensures { OnOk result (Writes write (words_of board.now op.now bus) writes.old writes.new) }
{
    let route = route_of(board, op, bus);
    let request = request_on(op, route.bus);
    match route.owner {
        Place::Target(target) => match board.targets.as_slice().get(target as usize) {
            Some(agent) => put_at(writes, alloc, agent, target, &request, write),
            None => Ok(()),
        },
        Place::Header(_) | Place::Lane(_) | Place::Nobody => Ok(()),
    }
}

/// The same of a request at a target.
fn put_at(
    writes: &mut WriteIndex,
    alloc: Global,
    agent: &Target,
    target: u16,
    request: &Request,
    write: Write,
) -> Result<(), NoMemory>
    ensures { OnOk result
        (Writes write (words_at target request.now (Some agent.now)) writes.old writes.new) }
{
    let space = request.command.space();
    let address = u128::from(request.address);
    if is_in_ranges(agent.aborts.as_slice(), space, address) {
        Ok(())
    } else {
        let first = Word {
            target,
            space,
            address: dword_address(space, address),
        };
        put_phases(writes, alloc, request.phases.as_slice(), first, write)
    }
}

/// The same of the data phases from the first dword on.
fn put_phases(
    writes: &mut WriteIndex,
    alloc: Global,
    phases: &[Phase],
    first: Word,
    write: Write,
) -> Result<(), NoMemory>
    requires { first.address ≤ 2 ^ 120 }
    ensures { OnOk result (Writes write
        (dwords_from first.target first.space first.address phases.now) writes.old writes.new) }
{
    let mut next = first.address;
    for _ in phases {
        let word = Word {
            address: next,
            ..first
        };
        writes.put(alloc, word, write)?;
        next += 4;
    }
    Ok(())
}

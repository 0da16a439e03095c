ghost use Rattle.std.specs.Prelude.{◌≡◌, ◌≤◌, OnOk, length};
ghost use Rattle.board_tree.specs.Decodable.{IsDecodable};
ghost use Rattle.safe_model.specs.Ops.{ops_by, ops_from};
ghost use Rattle.untagged_check.specs.index.Kept.{Lists, Writes, dwords_written, write_of};
ghost use Rattle.board_model.specs.Limits.{most_ops};

use crate::index::entry::Write;
use crate::index::index::WriteIndex;
use crate::index::words::put_write;
use audit_clocks::OpTable;
use board_model::{Board, Op};
use board_tree::Tree;
use pci_command::{NoMemory, OpId};
use std::alloc::Global;

/// The writes of the board are listed, by master, then by their places in the program.
pub(crate) fn list_writes(
    writes: &mut WriteIndex,
    alloc: Global,
    tree: &Tree,
    landed: &OpTable<usize>,
) -> Result<(), NoMemory>
    ensures { OnOk result
        (Lists tree.now landed.now (ops_by 0 tree.now.masters) writes.old writes.new) }
{
    let board = tree.board();
    for (number, master) in board.masters.as_slice().iter().enumerate() {
        let ops = master.ops.as_slice();
        list_program(writes, alloc, board, landed, number as u16, ops)?;
    }
    Ok(())
}

/// The same of the program of one master.
fn list_program(
    writes: &mut WriteIndex,
    alloc: Global,
    board: &Board,
    landed: &OpTable<usize>,
    master: u16,
    ops: &[Op],
) -> Result<(), NoMemory>
    requires decodable { IsDecodable board.now }
    requires few { length ops.now ≤ most_ops }
    ensures { OnOk result
        (Lists board.now landed.now (ops_from master 0 ops.now) writes.old writes.new) }
{
    for place in 0..ops.len() {
        let op = OpId {
            master,
            index: place as u16,
            attempt: 0,
        };
        put_write(writes, alloc, board, write_of(landed, op))?;
    }
    Ok(())
}

fn write_of(landed: &OpTable<usize>, op: OpId) -> Write
    ensures { result ≡ write_of landed.now op }
{
    let landed = match landed.get(op) {
        Some(events) => *events,
        None => usize::MAX,
    };
    Write { op, landed }
}

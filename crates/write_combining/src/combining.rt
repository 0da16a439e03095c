ghost use Rattle.std.specs.Prelude.{◌≡◌, map, IfOk};
ghost use Rattle.write_combining.specs.Combined.{combined_ops, combined_master, combined};
ghost use Rattle.write_combining.specs.Kept.{KeepsBoard};

use crate::copies::{copy_list, copy_name, copy_op, copy_targets};
use crate::{combining_keeps, join};
use board_model::{Board, Master, Op};
use board_tree::Tree;
use pci_command::{List, NoMemory};
use std::alloc::Global;
use std::mem;

/// The board of the tree behind a host bridge that joins the memory writes of each program: from
/// left to right, the write in hand takes in the next as long as combining or merging allows it. It
/// is valid, with a bound that is not higher; each program has the same other operations in the
/// same order, and between each two of them the same bytes are brought to each address in the same
/// order; and joined again it is the same.
pub fn combine(alloc: Global, tree: &Tree) -> Result<Board, NoMemory>
    ensures combined { IfOk result (λ board. board ≡ combined tree.now) }
    ensures keeps { IfOk result (KeepsBoard tree.now) }
    ensures once { IfOk result (λ board. combined board ≡ board) }
{
    combining_keeps();
    combined_board(alloc, tree.board())
}

fn combined_board(alloc: Global, board: &Board) -> Result<Board, NoMemory>
    ensures { IfOk result (λ joined. joined ≡ combined board.now) }
{
    Ok(Board {
        bridges: copy_list(alloc, board.bridges.as_slice())?,
        targets: copy_targets(alloc, board.targets.as_slice())?,
        masters: combined_masters(alloc, board, board.masters.as_slice())?,
        discards: copy_list(alloc, board.discards.as_slice())?,
        drops: copy_list(alloc, board.drops.as_slice())?,
    })
}

fn combined_masters(
    alloc: Global,
    board: &Board,
    masters: &[Master],
) -> Result<List<Master>, NoMemory>
    ensures { IfOk result (λ joined. joined ≡ map (combined_master board.now) masters.now) }
{
    let mut joined = Vec::new(alloc);
    for master in masters {
        joined.push(combined_master(alloc, board, master)?)?;
    }
    Ok(List::from_vec(joined))
}

fn combined_master(alloc: Global, board: &Board, master: &Master) -> Result<Master, NoMemory>
    ensures { IfOk result (λ joined. joined ≡ combined_master board.now master.now) }
{
    Ok(Master {
        name: copy_name(&master.name),
        bus: master.bus,
        ops: combined_ops(alloc, board, master.ops.as_slice())?,
    })
}

fn combined_ops(alloc: Global, board: &Board, ops: &[Op]) -> Result<List<Op>, NoMemory>
    ensures { IfOk result (λ joined. joined ≡ combined_ops board.now ops.now) }
{
    let mut joined = Vec::new(alloc);
    if let Some((first, rest)) = ops.split_first() {
        let mut hand = copy_op(first);
        for op in rest {
            match join(board, &hand, op) {
                Some(both) => hand = both,
                None => joined.push(mem::replace(&mut hand, copy_op(op)))?,
            }
        }
        joined.push(hand)?;
    }
    Ok(List::from_vec(joined))
}

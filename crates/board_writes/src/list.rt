ghost use Rattle.std.specs.Prelude.{◌≡◌, [], ◌≤◌, IfOk, OnOk, length};
ghost use Rattle.board_writes.specs.Listed.{AddsPolls, ListsPolls};
ghost use Rattle.board_model.specs.Limits.{most_ops};

use crate::start::is_tried;
use board_model::Op;
use board_tree::Tree;
use pci_command::{NoMemory, OpId};
use std::alloc::Global;

/// The polls of the board, by master, then by their places in the programs.
pub fn polls_of(alloc: Global, tree: &Tree) -> Result<Vec<OpId>, NoMemory>
    ensures { IfOk result (λ ops. ListsPolls tree.now ops.items) }
{
    let mut ops = Vec::new(alloc);
    list_all(&mut ops, tree)?;
    Ok(ops)
}

#[tactic(auto, using(crate::proofs::ListLemmas::of_board))]
fn list_all(ops: &mut Vec<OpId>, tree: &Tree) -> Result<(), NoMemory>
    requires { ops.old.items ≡ [] }
    ensures { OnOk result (ListsPolls tree.now ops.new.items) }
{
    let board = tree.board();
    for (number, master) in board.masters.as_slice().iter().enumerate() {
        let program = master.ops.as_slice();
        list_program(ops, number as u16, program)?;
    }
    Ok(())
}

/// Those of the program of one master, behind others.
#[tactic(auto, using(crate::proofs::ListLemmas::of_program))]
fn list_program(ops: &mut Vec<OpId>, master: u16, program: &[Op]) -> Result<(), NoMemory>
    requires { length program.now ≤ most_ops }
    ensures { OnOk result
        (AddsPolls master program.now (length program.now) ops.old.items ops.new.items) }
{
    for (place, op) in program.iter().enumerate() {
        if is_tried(op) {
            ops.push(OpId {
                master,
                index: place as u16,
                attempt: 0,
            })?;
        }
    }
    Ok(())
}

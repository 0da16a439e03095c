ghost use Rattle.std.specs.Prelude.{◌≡◌, ◌≤◌, [], ◌∷◌, ◌++◌, length, map, IfOk, OnOk};
ghost use Rattle.std.specs.Option.{option_map};
ghost use Rattle.safe_model.specs.largest.Largest.{IsLargest};
ghost use Rattle.safe_model.specs.Ops.{ops_by, ops_from};
ghost use Rattle.board_writes.specs.Rows.{table_of, KeepsPolls};
ghost use Rattle.board_writes.specs.Polls.{AreKept};
ghost use Rattle.safe_said.specs.AllSaid.{verdict, line, lines_of, all_said};
ghost use Rattle.safe_said.specs.Members.{IsSeen, KeepsMembers, Says};
ghost use Rattle.board_model.specs.Limits.{most_ops};

use crate::looks::Looks;
use crate::members::Members;
use crate::ops::said_of;
use crate::verdict::{OpSaid, Said};
use board_model::Op;
use board_tree::Tree;
use board_writes::{ClockTable, Gathered};
use pci_command::{NoMemory, OpId};
use std::alloc::Global;

/// What is said of the operations of a board by its largest table, and by what was gathered of its
/// writes and polls, in the order of master and index; nothing of those of which nothing is said.
///
/// The writes of a word that some run may come to are listed once, as runs, and put in the order in
/// which they land, by one walk for each run; where they land in none, each is looked at beside each
/// run, up to the first that another is not settled with. Where they land in one order a read takes
/// two binary searches, and one in each run where a write stands beside it. Where they do not, it
/// takes one in each run, and no more if all come before it; else those before it are put in their
/// order once more, and looked at beside their runs.
pub fn said_of_all(
    alloc: Global,
    tree: &Tree,
    table: &ClockTable,
    gathered: &Gathered,
) -> Result<Vec<OpSaid>, NoMemory>
    requires largest { IsLargest tree.now (table_of table.now) }
    requires polls { KeepsPolls tree.now table.now }
    requires kept { AreKept tree.now gathered.now.writers gathered.now.polls }
    ensures { IfOk result (λ list. map line list.items ≡ all_said tree.now (table_of table.now)) }
{
    let looks = Looks {
        tree,
        table,
        writers: &gathered.writers,
        polls: &gathered.polls,
    };
    let mut list = Vec::new(alloc);
    list_said(&mut list, alloc, &looks)?;
    Ok(list)
}

fn list_said(list: &mut Vec<OpSaid>, alloc: Global, looks: &Looks) -> Result<(), NoMemory>
    requires seen { IsSeen looks.now.tree.now looks.now.table.now looks.now.writers.now
        looks.now.polls.now }
    requires none { list.old.items ≡ [] }
    ensures { OnOk result (map line list.new.items ≡ all_said looks.now.tree.now (table_of
        looks.now.table.now)) }
{
    let mut members = Members::new(alloc);
    list_masters(list, &mut members, alloc, looks)
}

/// Of master by master.
fn list_masters(
    list: &mut Vec<OpSaid>,
    members: &mut Members,
    alloc: Global,
    looks: &Looks,
) -> Result<(), NoMemory>
    requires seen { IsSeen looks.now.tree.now looks.now.table.now looks.now.writers.now
        looks.now.polls.now }
    requires kept { KeepsMembers looks.now.tree.now (table_of looks.now.table.now) members.old }
    ensures { OnOk result (Says looks.now.tree.now (table_of looks.now.table.now) (ops_by 0
        looks.now.tree.now.masters) members.new list.old.items list.new.items) }
{
    let board = looks.tree.board();
    for (number, master) in board.masters.as_slice().iter().enumerate() {
        let ops = master.ops.as_slice();
        list_program(list, members, alloc, looks, number as u16, ops)?;
    }
    Ok(())
}

/// Of the program of one master.
fn list_program(
    list: &mut Vec<OpSaid>,
    members: &mut Members,
    alloc: Global,
    looks: &Looks,
    master: u16,
    ops: &[Op],
) -> Result<(), NoMemory>
    requires seen { IsSeen looks.now.tree.now looks.now.table.now looks.now.writers.now
        looks.now.polls.now }
    requires kept { KeepsMembers looks.now.tree.now (table_of looks.now.table.now) members.old }
    requires few { length ops.now ≤ most_ops }
    ensures { OnOk result (Says looks.now.tree.now (table_of looks.now.table.now) (ops_from master
        0 ops.now) members.new list.old.items list.new.items) }
{
    for place in 0..ops.len() {
        let op = OpId {
            master,
            index: place as u16,
            attempt: 0,
        };
        list_op(list, members, alloc, looks, op)?;
    }
    Ok(())
}

/// Of one operation.
fn list_op(
    list: &mut Vec<OpSaid>,
    members: &mut Members,
    alloc: Global,
    looks: &Looks,
    op: OpId,
) -> Result<(), NoMemory>
    requires first { op.attempt ≡ 0 }
    requires seen { IsSeen looks.now.tree.now looks.now.table.now looks.now.writers.now
        looks.now.polls.now }
    requires kept { KeepsMembers looks.now.tree.now (table_of looks.now.table.now) members.old }
    ensures { OnOk result (Says looks.now.tree.now (table_of looks.now.table.now) (op ∷ [])
        members.new list.old.items list.new.items) }
{
    let said = said_of(members, alloc, looks, op)?;
    add(list, op, said)
}

/// One line more, where something is said.
fn add(list: &mut Vec<OpSaid>, op: OpId, said: Option<Said>) -> Result<(), NoMemory>
    ensures { OnOk result (map line list.new.items ≡ map line list.old.items ++ lines_of op
        (option_map verdict said)) }
{
    if let Some(said) = said {
        list.push(OpSaid { op, said })?;
    }
    Ok(())
}

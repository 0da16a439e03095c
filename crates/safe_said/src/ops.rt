ghost use Rattle.std.specs.Prelude.{◌≡◌, IfOk, OnOk, Some};
ghost use Rattle.std.specs.Option.{option_map};
ghost use Rattle.board_model.specs.Requests.{op_of, read_phases};
ghost use Rattle.history_model.specs.Knowledge.{words_named};
ghost use Rattle.safe_model.specs.said.Said.{said_of, said_as, said_of_read, said_of_write};
ghost use Rattle.board_writes.specs.Rows.{table_of};
ghost use Rattle.board_writes.specs.Writes.{words_from};
ghost use Rattle.safe_said.specs.AllSaid.{verdict};
ghost use Rattle.safe_said.specs.Members.{IsSeen, KeepsMembers};

use crate::looks::Looks;
use crate::lost::{said_of_lost, said_of_nowhere};
use crate::members::Members;
use crate::order::is_reached;
use crate::polls::said_of_poll;
use crate::reads::said_of_read;
use crate::verdict::Said;
use board_model::{Op, Word, op_of};
use board_writes::first_named;
use pci_command::{NoMemory, OpId};
use std::alloc::Global;

/// What is said of an operation: nothing of one that no run comes to.
pub(crate) fn said_of(
    members: &mut Members,
    alloc: Global,
    looks: &Looks,
    op: OpId,
) -> Result<Option<Said>, NoMemory>
    requires first { op.attempt ≡ 0 }
    requires seen { IsSeen looks.now.tree.now looks.now.table.now looks.now.writers.now
        looks.now.polls.now }
    requires kept { KeepsMembers looks.now.tree.now (table_of looks.now.table.now) members.old }
    ensures said { IfOk result (λ said. option_map verdict said ≡ said_of looks.now.tree.now
        (table_of looks.now.table.now) op) }
    ensures kept { OnOk result (KeepsMembers looks.now.tree.now (table_of looks.now.table.now)
        members.new) }
{
    if is_reached(looks.table, op) {
        said_of_reached(members, alloc, looks, op)
    } else {
        Ok(None)
    }
}

/// Of one that some run may come to.
fn said_of_reached(
    members: &mut Members,
    alloc: Global,
    looks: &Looks,
    op: OpId,
) -> Result<Option<Said>, NoMemory>
    requires first { op.attempt ≡ 0 }
    requires seen { IsSeen looks.now.tree.now looks.now.table.now looks.now.writers.now
        looks.now.polls.now }
    requires kept { KeepsMembers looks.now.tree.now (table_of looks.now.table.now) members.old }
    ensures said { IfOk result (λ said. option_map verdict said ≡ said_as looks.now.tree.now
        (table_of looks.now.table.now) op (op_of looks.now.tree.now op)) }
    ensures kept { OnOk result (KeepsMembers looks.now.tree.now (table_of looks.now.table.now)
        members.new) }
{
    let board = looks.tree.board();
    match op_of(board, op) {
        None => Ok(None),
        Some(found @ (Op::Read { .. } | Op::CfgRead { .. })) => {
            said_of_named(members, alloc, looks, op, found, first_named(board, op))
        }
        Some(found @ (Op::Write { .. } | Op::CfgWrite { .. })) => {
            Ok(said_of_write(looks, op, found))
        }
        Some(found @ Op::Poll { .. }) => said_of_poll(alloc, looks, op, found),
    }
}

/// Of a read, by its word.
fn said_of_named(
    members: &mut Members,
    alloc: Global,
    looks: &Looks,
    read: OpId,
    op: &Op,
    word: Option<Word>,
) -> Result<Option<Said>, NoMemory>
    requires seen { IsSeen looks.now.tree.now looks.now.table.now looks.now.writers.now
        looks.now.polls.now }
    requires kept { KeepsMembers looks.now.tree.now (table_of looks.now.table.now) members.old }
    ensures said { IfOk result (λ said. option_map verdict said ≡ said_of_read looks.now.tree.now
        (table_of looks.now.table.now) read op.now (words_from word read_phases)) }
    ensures kept { OnOk result (KeepsMembers looks.now.tree.now (table_of looks.now.table.now)
        members.new) }
{
    match word {
        None => Ok(said_of_nowhere(looks.tree.board(), read, op)),
        Some(word) => {
            members.list(alloc, looks, word)?;
            match members.of(word) {
                None => Ok(None),
                Some(reached) => {
                    let said = said_of_read(alloc, looks, word, read, reached)?;
                    Ok(Some(said))
                }
            }
        }
    }
}

/// Of a write: one that has a word has no line.
fn said_of_write(looks: &Looks, write: OpId, op: &Op) -> Option<Said>
    requires { op_of looks.now.tree.now write ≡ Some op.now }
    ensures { option_map verdict result ≡ said_of_write looks.now.tree.now write op.now
        (words_named looks.now.tree.now write) }
{
    let board = looks.tree.board();
    match first_named(board, write) {
        Some(_) => None,
        None => said_of_lost(board, write, op),
    }
}

ghost use Rattle.std.specs.Prelude.{◌≡◌, true, false, Some, slice_get, IfOk};
ghost use Rattle.std.specs.Option.{option_map, option_or};
ghost use Rattle.board_model.specs.Requests.{op_of};
ghost use Rattle.board_tree.specs.Decodable.{IsDecodable};
ghost use Rattle.safe_model.specs.Clocks.{Table, is_poll};
ghost use Rattle.safe_model.specs.largest.Tests.{wish_of, is_told};
ghost use Rattle.safe_model.specs.said.Said.{loose, said_nowhere, owner_of, said_of_poll};
ghost use Rattle.board_writes.specs.Rows.{table_of};
ghost use Rattle.safe_said.specs.AllSaid.{verdict};
ghost use Rattle.safe_said.specs.Members.{IsSeen};

use crate::looks::Looks;
use crate::lost::said_of_nowhere;
use crate::verdict::Said;
use board_model::{Board, Op};
use board_tree::Tree;
use board_writes::first_named;
use pci_command::{NoMemory, OpId};
use std::alloc::Global;

/// What is said of a poll: it reads no word, it is told of nothing, or none of what can meet it is
/// ever done.
pub(crate) fn said_of_poll(
    alloc: Global,
    looks: &Looks,
    poll: OpId,
    op: &Op,
) -> Result<Option<Said>, NoMemory>
    requires first { poll.attempt ≡ 0 }
    requires found { op_of looks.now.tree.now poll ≡ Some op.now }
    requires is_poll { is_poll (Some op.now) ≡ true }
    requires seen { IsSeen looks.now.tree.now looks.now.table.now looks.now.writers.now
        looks.now.polls.now }
    ensures { IfOk result (λ said. option_map verdict said ≡ said_of_poll looks.now.tree.now
        (table_of looks.now.table.now) poll op.now (wish_of looks.now.tree.now poll)) }
{
    if !looks.polls.is_told(looks.table, looks.writers, poll) {
        return Ok(Some(said_untold(looks.tree, poll, op)));
    }
    let raised = looks
        .polls
        .is_raised(alloc, looks.table, looks.writers, poll)?;
    if raised {
        Ok(None)
    } else {
        Ok(Some(Said::Vain))
    }
}

/// Of one that is told of nothing, by whether it has a word.
fn said_untold(tree: &Tree, poll: OpId, op: &Op) -> Said
    requires found { op_of tree.now poll ≡ Some op.now }
    requires is_poll { is_poll (Some op.now) ≡ true }
    ensures { (table : Table) → is_told tree.now table poll (wish_of tree.now poll) ≡ false →
        said_of_poll tree.now table poll op.now (wish_of tree.now poll) ≡ Some (verdict result) }
{
    let board = tree.board();
    match first_named(board, poll) {
        None => nowhere_or_loose(board, poll, op),
        Some(_) => Said::Loose,
    }
}

/// Of one without a word.
fn nowhere_or_loose(board: &Board, poll: OpId, op: &Op) -> Said
    requires { IsDecodable board.now }
    ensures { option_or (said_nowhere (owner_of board.now poll op.now (slice_get board.now.masters
        poll.master))) (Some loose) ≡ Some (verdict result) }
{
    match said_of_nowhere(board, poll, op) {
        Some(said) => said,
        None => Said::Loose,
    }
}

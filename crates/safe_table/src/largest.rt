ghost use Rattle.std.specs.Prelude.{IfOk, OnOk};
ghost use Rattle.safe_model.specs.largest.Largest.{IsLargest};
ghost use Rattle.board_writes.specs.Rows.{table_of, KeepsPolls, KnowsAll};
ghost use Rattle.board_writes.specs.Polls.{AreKept};
ghost use Rattle.safe_table.specs.Bounds.{AreOf, BoundsAll, Largest};

use crate::fall::lower_until_none;
use crate::fronts::lower_fronts;
use board_tree::Tree;
use board_writes::{ClockTable, Gathered, gather, polls_of};
use pci_command::{NoMemory, OpId};
use std::alloc::Global;

/// A table of clocks of a board, and what was gathered of its writes and polls on the way.
#[derive(Debug, Drop)]
pub struct TableMade {
    pub table: ClockTable,
    pub gathered: Gathered,
}

/// The largest consistent table of the board. It goes over the polls until no number falls.
pub fn largest_table(alloc: Global, tree: &Tree) -> Result<TableMade, NoMemory>
    ensures largest { IfOk result (λ made. IsLargest tree.now (table_of made.table)) }
    ensures polls { IfOk result (λ made. KeepsPolls tree.now made.table) }
    ensures kept { IfOk result
        (λ made. AreKept tree.now made.gathered.writers made.gathered.polls) }
{
    let gathered = gather(alloc, tree)?;
    let mut table = ClockTable::start(alloc, tree)?;
    lower(alloc, tree, &gathered, &mut table)?;
    Ok(TableMade { table, gathered })
}

/// From the top a table falls to the largest consistent one.
fn lower(
    alloc: Global,
    tree: &Tree,
    gathered: &Gathered,
    table: &mut ClockTable,
) -> Result<(), NoMemory>
    requires kept { AreKept tree.now gathered.now.writers gathered.now.polls }
    requires all { KnowsAll tree.now table.old }
    ensures { OnOk result (Largest tree.now table.new) }
{
    let ops = polls_of(alloc, tree)?;
    lower_by(alloc, tree, gathered, table, ops.as_slice())
}

/// Along the programs at first, since most numbers fall there; then over all polls until none does.
fn lower_by(
    alloc: Global,
    tree: &Tree,
    gathered: &Gathered,
    table: &mut ClockTable,
    ops: &[OpId],
) -> Result<(), NoMemory>
    requires are { AreOf tree.now gathered.now.writers gathered.now.polls ops.now }
    requires bounds { BoundsAll tree.now table.old }
    ensures { OnOk result (Largest tree.now table.new) }
{
    lower_fronts(alloc, tree, gathered, table, ops)?;
    lower_until_none(alloc, tree, gathered, table, ops)
}

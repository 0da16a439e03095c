ghost use Rattle.std.specs.Prelude.{◌≡◌, IfOk, OnOk, length};
ghost use Rattle.board_writes.specs.Polls.{AreKept};
ghost use Rattle.safe_table.specs.Bounds.{AreOf, BoundsAll, Fell};
ghost use Rattle.safe_table.specs.Bounds.{LowersPoll, LowersPolls, Largest};

use crate::again::lower_again;
use board_tree::Tree;
use board_writes::{ClockTable, Gathered};
use pci_command::{NoMemory, OpId};
use std::alloc::Global;

/// It falls until no number does.
pub(crate) fn lower_until_none(
    alloc: Global,
    tree: &Tree,
    gathered: &Gathered,
    table: &mut ClockTable,
    ops: &[OpId],
) -> Result<(), NoMemory>
    requires are { AreOf tree.now gathered.now.writers gathered.now.polls ops.now }
    requires bounds { BoundsAll tree.now table.old }
    ensures { OnOk result (Largest tree.now table.new) }
{
    loop {
        let fell = lower_all(alloc, tree, gathered, table, ops)?;
        if !fell {
            return Ok(());
        }
        lower_again(alloc, tree, gathered, table, ops)?;
    }
}

/// Behind each of these polls; whether a number fell.
#[tactic(auto, using(crate::proofs::BoundLemmas::to_begin))]
fn lower_all(
    alloc: Global,
    tree: &Tree,
    gathered: &Gathered,
    table: &mut ClockTable,
    ops: &[OpId],
) -> Result<bool, NoMemory>
    requires are { AreOf tree.now gathered.now.writers gathered.now.polls ops.now }
    requires bounds { BoundsAll tree.now table.old }
    ensures fell { IfOk result (Fell table.old table.new) }
    ensures lowers { IfOk result
        (LowersPolls tree.now ops.now (length ops.now) table.old table.new) }
{
    let mut fell = false;
    for op in ops {
        let here = lower_poll(alloc, tree, gathered, table, *op)?;
        fell = fell || here;
    }
    Ok(fell)
}

/// Behind a poll so much is known as may be known at most; whether a number fell. None does where no
/// more is known behind it than before it.
pub(crate) fn lower_poll(
    alloc: Global,
    tree: &Tree,
    gathered: &Gathered,
    table: &mut ClockTable,
    op: OpId,
) -> Result<bool, NoMemory>
    requires kept { AreKept tree.now gathered.now.writers gathered.now.polls }
    requires first { op.attempt ≡ 0 }
    requires bounds { BoundsAll tree.now table.old }
    ensures fell { IfOk result (Fell table.old table.new) }
    ensures lowers { IfOk result (LowersPoll tree.now op table.old table.new) }
{
    if !table.tells(op) {
        return Ok(false);
    }
    let writers = &gathered.writers;
    let numbers = gathered.polls.most_known(alloc, tree, table, writers, op)?;
    Ok(table.lower_to(op, numbers.as_slice()))
}

ghost use Rattle.std.specs.Prelude.{◌<◌, length, IfSome, IfOk, OnOk, Contains};
ghost use Rattle.safe_table.specs.Bounds.{AreOf, BoundsAll, Fell};

use crate::fall::lower_poll;
use board_tree::Tree;
use board_writes::{ClockTable, Gathered};
use pci_command::{NoMemory, OpId};
use std::alloc::Global;

/// Of a program the first poll behind which all is known yet, by its place among all polls: none of
/// those behind it falls before it does.
#[derive(Debug, Clone, Copy)]
struct Front {
    master: u16,
    place: usize,
}

impl Front {
    /// That poll, where there is one.
    fn poll(&self, ops: &[OpId]) -> Option<OpId>
        ensures within { IfSome result (λ op. self.now.place < length ops.now) }
        ensures among { IfSome result (λ op. Contains ops.now op) }
    {
        match ops.get(self.place) {
            Some(op) if op.master == self.master => Some(*op),
            _ => None,
        }
    }
}

/// From the front of each program on it falls as far as it does, round after round.
pub(crate) fn lower_fronts(
    alloc: Global,
    tree: &Tree,
    gathered: &Gathered,
    table: &mut ClockTable,
    ops: &[OpId],
) -> Result<(), NoMemory>
    requires are { AreOf tree.now gathered.now.writers gathered.now.polls ops.now }
    requires bounds { BoundsAll tree.now table.old }
    ensures { OnOk result (BoundsAll tree.now table.new) }
{
    let mut fronts = fronts_of(alloc, ops)?;
    lower_rounds(alloc, tree, gathered, table, ops, fronts.as_mut_slice())
}

/// Where each program begins.
fn fronts_of(alloc: Global, ops: &[OpId]) -> Result<Vec<Front>, NoMemory> {
    let mut fronts = Vec::new(alloc);
    for (place, op) in ops.iter().enumerate() {
        if place == 0 || ops[place - 1].master != op.master {
            fronts.push(Front {
                master: op.master,
                place,
            })?;
        }
    }
    Ok(fronts)
}

/// Rounds over the programs, until no number falls.
fn lower_rounds(
    alloc: Global,
    tree: &Tree,
    gathered: &Gathered,
    table: &mut ClockTable,
    ops: &[OpId],
    fronts: &mut [Front],
) -> Result<(), NoMemory>
    requires are { AreOf tree.now gathered.now.writers gathered.now.polls ops.now }
    requires bounds { BoundsAll tree.now table.old }
    ensures { OnOk result (BoundsAll tree.now table.new) }
{
    loop {
        let fell = lower_round(alloc, tree, gathered, table, ops, fronts)?;
        if !fell {
            return Ok(());
        }
    }
}

/// A round over the programs; whether a number fell.
#[tactic(auto, using(crate::proofs::BoundLemmas::fell_none))]
fn lower_round(
    alloc: Global,
    tree: &Tree,
    gathered: &Gathered,
    table: &mut ClockTable,
    ops: &[OpId],
    fronts: &mut [Front],
) -> Result<bool, NoMemory>
    requires are { AreOf tree.now gathered.now.writers gathered.now.polls ops.now }
    requires bounds { BoundsAll tree.now table.old }
    ensures fell { IfOk result (Fell table.old table.new) }
    ensures bounds { OnOk result (BoundsAll tree.now table.new) }
{
    let mut fell = false;
    for front in fronts.iter_mut() {
        let here = lower_from(alloc, tree, gathered, table, ops, front)?;
        fell = fell || here;
    }
    Ok(fell)
}

/// Along a program poll by poll, up to one of which no number falls; whether one fell.
#[tactic(auto, using(crate::proofs::BoundLemmas::fell_none))]
fn lower_from(
    alloc: Global,
    tree: &Tree,
    gathered: &Gathered,
    table: &mut ClockTable,
    ops: &[OpId],
    front: &mut Front,
) -> Result<bool, NoMemory>
    requires are { AreOf tree.now gathered.now.writers gathered.now.polls ops.now }
    requires bounds { BoundsAll tree.now table.old }
    ensures fell { IfOk result (Fell table.old table.new) }
    ensures bounds { OnOk result (BoundsAll tree.now table.new) }
{
    let mut fell = false;
    while let Some(op) = front.poll(ops) {
        let here = lower_poll(alloc, tree, gathered, table, op)?;
        if !here {
            return Ok(fell);
        }
        front.place += 1;
        fell = true;
    }
    Ok(fell)
}

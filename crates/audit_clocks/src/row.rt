ghost use Rattle.std.specs.Prelude.{◌≡◌, ◌++◌, ◌-◌, ◌∷◌, length, replicate, slice_get};

use pci_command::{NoMemory, OpId};
use std::alloc::Global;
use std::marker::Model;

/// Operations in a row, fewer than 2^32.
#[derive(Debug, Drop)]
pub struct ClockRow {
    ops: Vec<OpId>,
}

impl Model for ClockRow {
    ghost use Rattle.std.specs.Prelude.{◌<◌, ◌^◌, length, List};
    ghost use Rattle.pci_command.specs.declared.op_id.OpId.{OpId};

    ghost Value = { List OpId };

    ghost view = { λ k. k.ops.items };

    ghost invariant = { λ k. length k.ops.items < 2 ^ 32 };
}

impl ClockRow {
    ghost use Rattle.std.specs.Prelude.{OnOk, []};
    ghost use Rattle.audit_clocks.specs.Rows.{reached};

    /// None.
    pub fn new(alloc: Global) -> ClockRow
        ensures { result ≡ [] }
    {
        ClockRow {
            ops: Vec::new(alloc),
        }
    }

    /// How many there are.
    pub fn count(&self) -> u32
        ensures { result ≡ length self.now }
    {
        self.ops.len() as u32
    }

    /// The operation at the place, from 0 on.
    pub fn get(&self, place: usize) -> Option<OpId>
        ensures { result ≡ slice_get self.now place }
    {
        self.ops.as_slice().get(place).copied()
    }

    /// The operation stands at each place up to so many that has none.
    #[tactic(auto, using(crate::proofs::RowLemmas::resized))]
    pub fn reach(&mut self, op: OpId, count: u32) -> Result<(), NoMemory>
        ensures { OnOk result (self.new ≡ reached op count self.old) }
    {
        let count = self.ops.len().max(count as usize);
        self.ops.resize(count, op)?;
        Ok(())
    }
}

ghost use Rattle.std.specs.Prelude.{◌≡◌, ◌≢◌, ◌<◌, ◌≤◌, ℕ, true, false, replicate, slice_get, Some, IfOk};
ghost use Rattle.std.proofs.Math.ListN.{set};
ghost use Rattle.judge_next.specs.Quiet.{AreFlags};

use crate::flights::{is_known, note};
use pci_command::NoMemory;
use std::alloc::Global;

/// Which of 256 buses are known to be quiet, and a bus below which all are.
#[derive(Debug, Drop)]
pub(crate) struct Quiet {
    buses: Vec<bool>,
    pub(crate) from: u16,
}

impl Quiet {
    /// None of them.
    pub(crate) fn none(alloc: Global) -> Result<Quiet, NoMemory>
        ensures none { IfOk result (λ quiet. quiet.buses.items ≡ replicate 256 false) }
        ensures flags { IfOk result AreFlags }
    {
        let buses = vec![in alloc; false; 256]?;
        Ok(Quiet { buses, from: 0 })
    }

    pub(crate) fn knows(&self, bus: u8) -> bool
        requires { AreFlags self.now }
        ensures { result ≡ true → slice_get self.now.buses.items bus ≡ Some true }
    {
        is_known(&self.buses, bus)
    }

    /// Whether the bus is known to be quiet from now on.
    pub(crate) fn mark(&mut self, bus: u8, is_quiet: bool)
        requires { AreFlags self.old }
        ensures marked { self.new.buses.items ≡ set self.old.buses.items bus is_quiet }
        ensures flags { AreFlags self.new }
    {
        note(&mut self.buses, bus, is_quiet);
        let from = from_behind(self.from, bus, is_quiet);
        self.from = from;
    }
}

fn from_behind(from: u16, bus: u8, is_quiet: bool) -> u16
    ensures few { from ≤ 256 → result ≤ 256 }
    ensures below { (k : ℕ) → k < result → (k ≢ bus → k < from) × (k ≡ bus → is_quiet ≡ true) }
{
    let bus = u16::from(bus);
    if !is_quiet {
        from.min(bus)
    } else if from == bus {
        from + 1
    } else {
        from
    }
}

ghost use Rattle.std.specs.Prelude.{◌≡◌, OnOk};

use audit_clocks::OpTable;
use history_model::{Event, Place, Step};
use pci_command::{NoMemory, OpId};
use std::alloc::Global;
use std::marker::Model;

/// Where each read was read at a target, and where each write landed.
#[derive(Drop)]
pub(crate) struct Ends {
    /// The last Read of each operation at a target.
    reads: OpTable<u32>,
    /// The first landing of all that was left of each write.
    lands: OpTable<u32>,
}

impl Model for Ends {
    ghost use Rattle.draw_told.specs.Kept.{EndTables};

    ghost Value = { EndTables };

    ghost view = { λ k. record { reads = k.reads; lands = k.lands } };
}

impl Ends {
    ghost use Rattle.std.specs.Prelude.{[]};
    ghost use Rattle.draw_told.specs.Kept.{number_of, TellsEnds, EndsNext, ReadsNow, LandsNow};

    pub(crate) fn new(alloc: Global) -> Ends
        ensures { TellsEnds [] result }
    {
        Ends {
            reads: OpTable::new(alloc),
            lands: OpTable::new(alloc),
        }
    }

    /// Event number n happens.
    #[tactic(auto, using(crate::proofs::EndLemmas::of_event))]
    pub(crate) fn happen(&mut self, n: u32, event: &Event) -> Result<(), NoMemory>
        ensures { OnOk result (EndsNext n event.now self.old self.new) }
    {
        match *event {
            Event::Act {
                op,
                step: Step::Read(_),
                place: Place::Target(_),
                ..
            } => self.read_now(n, op),
            Event::Act {
                op,
                step: Step::Land,
                ..
            } => self.land_now(n, op),
            Event::Act { .. } | Event::Arrive { .. } => Ok(()),
        }
    }

    fn read_now(&mut self, n: u32, op: OpId) -> Result<(), NoMemory>
        ensures { OnOk result (ReadsNow n op self.old self.new) }
    {
        self.reads.put(op, n)
    }

    fn land_now(&mut self, n: u32, op: OpId) -> Result<(), NoMemory>
        ensures { OnOk result (LandsNow n op self.old self.new) }
    {
        if self.land(op) == 0 {
            self.lands.put(op, n)
        } else {
            Ok(())
        }
    }

    /// The last Read of the operation at a target, or 0.
    pub(crate) fn read(&self, op: OpId) -> u32
        ensures { result ≡ number_of op self.now.reads }
    {
        match self.reads.get(op) {
            Some(n) => *n,
            None => 0,
        }
    }

    /// The first landing of what was left of the operation, or 0.
    pub(crate) fn land(&self, op: OpId) -> u32
        ensures { result ≡ number_of op self.now.lands }
    {
        match self.lands.get(op) {
            Some(n) => *n,
            None => 0,
        }
    }
}

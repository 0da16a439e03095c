ghost use Rattle.std.specs.Prelude.{◌≡◌, max, replicate, OnOk};
ghost use Rattle.std.specs.Option.{option_copied};
ghost use Rattle.audit_clocks.specs.Rows.{own, number, Reaches};
ghost use Rattle.audit_clocks.specs.Tables.{list_in};
ghost use Rattle.audit_clocks.specs.Clocks.{told_at, Learns};

use crate::known::Known;
use crate::numbers::Numbers;
use crate::op_table::OpTable;
use pci_command::{NoMemory, OpId};
use std::alloc::Global;
use std::marker::Model;

/// What all masters know, what each operation knew as its master last presented it, and what each
/// was told by what it last read.
#[derive(Debug, Drop)]
pub struct Clocks {
    masters: Vec<Known>,
    starts: OpTable<Numbers>,
    taught: OpTable<Numbers>,
}

impl Model for Clocks {
    ghost use Rattle.audit_clocks.specs.Clocks.{ClockState};

    ghost Value = { ClockState };

    ghost view = { λ k. record { known = k.masters.items; starts = k.starts; taught = k.taught } };
}

impl Clocks {
    ghost use Rattle.std.specs.Prelude.{IfOk, []};
    ghost use Rattle.audit_clocks.specs.Clocks.{Presented, Ended, since_at};
    ghost use Rattle.audit_clocks.specs.Tables.{Puts};

    /// Nobody of so many masters knows of anything.
    #[tactic(auto, using(crate::proofs::RowLemmas::replicate_more))]
    pub fn new(alloc: Global, masters: usize) -> Result<Clocks, NoMemory>
        ensures { IfOk result (λ clocks. clocks ≡ record {
          known = replicate masters (replicate masters []);
          starts = [];
          taught = [];
        }) }
    {
        let mut all = Vec::new(alloc);
        for _master in 0..masters {
            all.push(Known::new(alloc, masters)?)?;
        }
        Ok(Clocks {
            masters: all,
            starts: OpTable::new(alloc),
            taught: OpTable::new(alloc),
        })
    }

    /// With which of its operations the master came to know of this one.
    pub fn since(&self, op: OpId, master: u16) -> Option<OpId>
        ensures { result ≡ since_at self.now.known master op }
    {
        match self.masters.as_slice().get(usize::from(master)) {
            Some(known) => known.since(op),
            None => None,
        }
    }

    /// What each operation knew as its master last presented it.
    pub fn starts(&self) -> &OpTable<Numbers>
        ensures { result.now ≡ self.now.starts }
    {
        &self.starts
    }

    /// A master presents its operation: what it knows is what the operation knows.
    pub fn present(&mut self, alloc: Global, op: OpId) -> Result<(), NoMemory>
        ensures { OnOk result (Presented op self.old self.new) }
    {
        match self.masters.as_slice().get(usize::from(op.master)) {
            Some(known) => {
                let numbers = known.numbers(alloc)?;
                self.starts.put(op, numbers)
            }
            None => Ok(()),
        }
    }

    /// The operation was told this by what it read.
    pub fn teach(&mut self, op: OpId, told: Numbers) -> Result<(), NoMemory>
        ensures known { OnOk result (self.new.known ≡ self.old.known) }
        ensures starts { OnOk result (self.new.starts ≡ self.old.starts) }
        ensures taught { OnOk result (Puts op told self.old.taught self.new.taught) }
    {
        self.taught.put(op, told)
    }

    /// The operation ended at its master: with a value, and then what it read tells, or without
    /// one.
    pub fn end(&mut self, alloc: Global, op: OpId, has_value: bool) -> Result<(), NoMemory>
        ensures { OnOk result (Ended op has_value self.old self.new) }
    {
        let told = told_at(&self.taught, op, has_value);
        learn(&mut self.masters, alloc, op, told)
    }
}

/// What the operation was told, where it ended with a value.
fn told_at(taught: &OpTable<Numbers>, op: OpId, has_value: bool) -> Option<&Numbers>
    ensures { option_copied result ≡ told_at taught.now op has_value }
{
    if has_value { taught.get(op) } else { None }
}

/// The operation ended, and was told this: its master knows it and that.
#[tactic(auto, using(crate::proofs::RowLemmas::learns_inside, crate::proofs::RowLemmas::learns_outside))]
fn learn(
    masters: &mut Vec<Known>,
    alloc: Global,
    op: OpId,
    told: Option<&Numbers>,
) -> Result<(), NoMemory>
    ensures { OnOk result (Learns op (list_in (option_copied told.entry))
        masters.old.items masters.new.items) }
{
    let master = usize::from(op.master);
    if master < masters.len() {
        learn_told(&mut masters[master], alloc, op, told)?;
    }
    Ok(())
}

fn learn_told(
    known: &mut Known,
    alloc: Global,
    op: OpId,
    told: Option<&Numbers>,
) -> Result<(), NoMemory>
    ensures { OnOk result (Reaches op known.old known.new (λ author.
        max (number (list_in (option_copied told.entry)) author) (own op author))) }
{
    match told {
        Some(told) => known.learn(op, told),
        None => known.learn(op, &Numbers::empty(alloc)),
    }
}

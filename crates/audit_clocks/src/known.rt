ghost use Rattle.std.specs.Prelude.{◌≡◌, ◌<◌, map, max, length, replicate, OnOk};
ghost use Rattle.std.proofs.Math.ListN.{set};
ghost use Rattle.audit_clocks.specs.Rows.{own, number, row, reached, Reaches};

use crate::numbers::{Numbers, own};
use crate::row::ClockRow;
use pci_command::{NoMemory, OpId};
use std::alloc::Global;
use std::marker::Model;

/// What a master knows: of each author, with which of its own operations the master came to know of
/// each of the author's, from the first on. How many there are is what it knows of the author.
#[derive(Debug, Drop)]
pub struct Known {
    rows: Vec<ClockRow>,
}

impl Model for Known {
    ghost use Rattle.std.specs.Prelude.{List};
    ghost use Rattle.pci_command.specs.declared.op_id.OpId.{OpId};

    ghost Value = { List (List OpId) };

    ghost view = { λ k. k.rows.items };
}

impl Known {
    ghost use Rattle.std.specs.Prelude.{IfOk, []};
    ghost use Rattle.audit_clocks.specs.Rows.{since_in};

    /// Nothing of so many authors.
    #[tactic(auto, using(crate::proofs::RowLemmas::replicate_more))]
    pub fn new(alloc: Global, authors: usize) -> Result<Known, NoMemory>
        ensures { IfOk result (λ known. known ≡ replicate authors []) }
    {
        let mut rows = Vec::new(alloc);
        for _author in 0..authors {
            rows.push(ClockRow::new(alloc))?;
        }
        Ok(Known { rows })
    }

    /// How many operations of each author it knows.
    pub fn numbers(&self, alloc: Global) -> Result<Numbers, NoMemory>
        ensures { IfOk result (λ numbers. numbers ≡ map length self.now) }
    {
        let counts = self.rows.iter().map(|row| row.count()).collect(alloc)?;
        Ok(Numbers::from_counts(counts))
    }

    /// With which of its operations the master came to know of this one.
    pub fn since(&self, op: OpId) -> Option<OpId>
        ensures { result ≡ since_in self.now op }
    {
        match self.rows.as_slice().get(usize::from(op.master)) {
            Some(row) => row.get(usize::from(op.index)),
            None => None,
        }
    }

    /// The operation ended, and was told so much: its master knows it and that.
    pub fn learn(&mut self, op: OpId, told: &Numbers) -> Result<(), NoMemory>
        ensures { OnOk result (Reaches op self.old self.new (λ author.
            max (number told.now author) (own op author))) }
    {
        learn_all(&mut self.rows, op, told)
    }
}

#[tactic(auto, using(crate::proofs::RowLemmas::reaches_none, crate::proofs::RowLemmas::reaches_next, crate::proofs::RowLemmas::reaches_all))]
fn learn_all(rows: &mut Vec<ClockRow>, op: OpId, told: &Numbers) -> Result<(), NoMemory>
    ensures { OnOk result (Reaches op rows.old.items rows.new.items (λ author.
        max (number told.now author) (own op author))) }
{
    for author in 0..rows.len() {
        learn_at(rows, op, told, author)?;
    }
    Ok(())
}

fn learn_at(
    rows: &mut Vec<ClockRow>,
    op: OpId,
    told: &Numbers,
    author: usize,
) -> Result<(), NoMemory>
    requires { author < length rows.old.items }
    ensures { OnOk result (rows.new.items ≡ set rows.old.items author
        (reached op (max (number told.now author) (own op author)) (row rows.old.items author))) }
{
    let count = told.count_of(author).max(own(op, author));
    rows[author].reach(op, count)
}

ghost use Rattle.std.specs.Prelude.{◌≡◌, ◌<◌, max, length, replicate};
ghost use Rattle.std.proofs.Math.ListN.{set};
ghost use Rattle.audit_clocks.specs.Rows.{own, number, Raises};

use pci_command::{NoMemory, OpId};
use std::alloc::Global;
use std::marker::Model;

/// How many operations of each author's program are known, from the first on.
#[derive(Debug, Drop)]
pub struct Numbers {
    counts: Vec<u32>,
}

impl Model for Numbers {
    ghost use Rattle.std.specs.Prelude.{List, ℕ};

    ghost Value = { List ℕ };

    ghost view = { λ k. k.counts.items };
}

impl Numbers {
    ghost use Rattle.std.specs.Prelude.{IfOk, []};

    /// Of no author.
    pub fn empty(alloc: Global) -> Numbers
        ensures { result ≡ [] }
    {
        Numbers {
            counts: Vec::new(alloc),
        }
    }

    /// None of any of so many authors.
    pub fn none(alloc: Global, authors: usize) -> Result<Numbers, NoMemory>
        ensures { IfOk result (λ numbers. numbers ≡ replicate authors 0) }
    {
        let counts = vec![in alloc; 0; authors]?;
        Ok(Numbers { counts })
    }

    /// These.
    pub(crate) fn from_counts(counts: Vec<u32>) -> Numbers
        ensures { result ≡ counts.items }
    {
        Numbers { counts }
    }

    /// The same again.
    pub fn copied(&self, alloc: Global) -> Result<Numbers, NoMemory>
        ensures { IfOk result (λ numbers. numbers ≡ self.now) }
    {
        let counts = self.counts.iter().copied().collect(alloc)?;
        Ok(Numbers { counts })
    }

    /// That of the author; 0 where there is none.
    pub fn of(&self, author: usize) -> usize
        ensures { result ≡ number self.now author }
    {
        self.count_of(author) as usize
    }

    pub(crate) fn count_of(&self, author: usize) -> u32
        ensures { result ≡ number self.now author }
    {
        match self.counts.as_slice().get(author) {
            Some(count) => *count,
            None => 0,
        }
    }

    /// What is known rises by an operation, by those before it in its program, and by what it knew.
    pub fn raise(&mut self, start: &Numbers, op: OpId)
        ensures { Raises self.old self.new (λ author.
            max (number start.now author) (own op author)) }
    {
        raise_all(&mut self.counts, start, op);
    }
}

#[tactic(auto, using(crate::proofs::RowLemmas::raised_none, crate::proofs::RowLemmas::raised_next, crate::proofs::RowLemmas::raised_all))]
fn raise_all(counts: &mut Vec<u32>, start: &Numbers, op: OpId)
    ensures { Raises counts.old.items counts.new.items (λ author. max (number start.now author) (own op author)) }
{
    for author in 0..counts.len() {
        raise_at(counts, start, op, author);
    }
}

fn raise_at(counts: &mut Vec<u32>, start: &Numbers, op: OpId, author: usize)
    requires { author < length counts.old.items }
    ensures { counts.new.items ≡ set counts.old.items author
        (max (number counts.old.items author) (max (number start.now author) (own op author))) }
{
    let more = start.count_of(author).max(own(op, author));
    counts[author] = counts[author].max(more);
}

/// How many of the author's operations an operation and those before it in its program are.
pub(crate) fn own(op: OpId, author: usize) -> u32
    ensures { result ≡ own op author }
{
    if usize::from(op.master) == author {
        u32::from(op.index) + 1
    } else {
        0
    }
}

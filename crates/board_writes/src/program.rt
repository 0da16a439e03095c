ghost use Rattle.std.specs.Prelude.{◌≡◌, ◌≤◌, ℕ, false};
ghost use Rattle.board_writes.specs.Rows.{known_at, last_in, lowered_in, number, raised_at};
ghost use Rattle.board_writes.specs.Falls.{FallsIn, row_in};

use crate::known::raised;
use crate::row::{Row, number_at};
use pci_command::OpId;
use std::marker::Model;

/// What is kept of a program.
#[derive(Debug, Drop)]
pub(crate) struct Program {
    /// By each operation: where it is a poll, what is known behind it.
    pub(crate) rows: Vec<Row>,
    /// By each operation: up to and with the last poll before it, how many operations there are.
    pub(crate) lasts: Vec<usize>,
    /// The same behind the last operation.
    pub(crate) end: usize,
}

impl Model for Program {
    ghost use Rattle.board_writes.specs.Rows.{ProgramRows};

    ghost Value = { ProgramRows };

    ghost view = { λ k. record { rows = k.rows.items; lasts = k.lasts.items; end = k.end } };
}

impl Program {
    /// Of the first so many operations, how many there are up to and with the last poll.
    fn last(&self, index: usize) -> usize
        ensures { result ≡ last_in self.now index }
    {
        match self.lasts.as_slice().get(index) {
            Some(last) => *last,
            None => self.end,
        }
    }

    /// Of each master what is known behind the last poll before the operation at a place.
    pub(crate) fn numbers_before(&self, index: u16) -> &[u16]
        ensures { (other : ℕ) → number result.now other ≡ known_at self.now (last_in self.now index) other }
    {
        self.numbers(self.last(usize::from(index)))
    }

    /// The same behind the last of so many operations.
    fn numbers(&self, count: usize) -> &[u16]
        ensures { (other : ℕ) → number result.now other ≡ known_at self.now count other }
    {
        if count == 0 {
            return &[];
        }
        match self.rows.as_slice().get(count - 1) {
            Some(row) => row.as_slice(),
            None => &[],
        }
    }

    /// Whether behind the operation more is known of some master than before it.
    pub(crate) fn tells(&self, op: OpId) -> bool
        ensures { result ≡ false → (other : ℕ) → number (row_in self.now op.index) other
            ≤ raised_at (known_at self.now (last_in self.now op.index) other) op other }
    {
        let before = self.numbers_before(op.index);
        match self.rows.as_slice().get(usize::from(op.index)) {
            Some(row) => is_above(row.as_slice(), before, op),
            None => false,
        }
    }

    /// Behind the operation at a place so many operations of a master are known at most.
    #[tactic(auto, using(crate::proofs::LowerLemmas::program_past))]
    pub(crate) fn lower(&mut self, index: usize, other: usize, most: usize)
        ensures { self.new ≡ lowered_in self.old index other most }
    {
        if index < self.rows.len() {
            self.rows[index].lower(other, most);
        }
    }

    /// Behind the operation at a place so many operations of each master are known at most; whether
    /// a number fell.
    #[tactic(auto, using(crate::proofs::FallLemmas::of_program))]
    pub(crate) fn lower_to(&mut self, index: usize, most: &[usize]) -> bool
        ensures { FallsIn index most.now self.old self.new result }
    {
        if index < self.rows.len() {
            self.rows[index].lower_to(most)
        } else {
            false
        }
    }
}

/// Whether of some master more is known than before an operation.
fn is_above(numbers: &[u16], before: &[u16], op: OpId) -> bool
    ensures { result ≡ false → (other : ℕ) →
        number numbers.now other ≤ raised_at (number before.now other) op other }
{
    for (other, number) in numbers.iter().enumerate() {
        if raised(number_at(before, other), op, other) < usize::from(*number) {
            return true;
        }
    }
    false
}

ghost use Rattle.std.specs.Prelude.{◌≡◌, ◌≤◌, ℕ, true, false, nat_lt};
ghost use Rattle.safe_model.specs.Clocks.{clock_of, greater};
ghost use Rattle.board_writes.specs.Looks.{clock_in, clock_past, past_at};
ghost use Rattle.board_writes.specs.Rows.{known_in, table_of, raised_at, lesser, number};
ghost use Rattle.board_writes.specs.Rows.{KeepsPolls};
ghost use Rattle.board_writes.specs.Falls.{LowersTo};

use crate::program::Program;
use crate::row::number_at;
use crate::start::start_all;
use board_tree::Tree;
use pci_command::{NoMemory, OpId};
use std::alloc::Global;
use std::marker::Model;

/// A table of clocks of a board: of each poll and each master, how many operations of its program
/// are known behind the poll.
#[derive(Debug, Drop)]
pub struct ClockTable {
    programs: Vec<Program>,
}

impl Model for ClockTable {
    ghost use Rattle.std.specs.Prelude.{List};
    ghost use Rattle.board_writes.specs.Rows.{ProgramRows};

    ghost Value = { List ProgramRows };

    ghost view = { λ k. k.programs.items };
}

impl ClockTable {
    ghost use Rattle.std.specs.Prelude.{IfOk};
    ghost use Rattle.board_model.specs.declared.board.Board.{Board};
    ghost use Rattle.board_writes.specs.Rows.{KnowsAll, LowersAt};

    /// Everything is known behind each poll.
    #[tactic(auto, using(crate::proofs::StartLemmas::starts_know_all))]
    pub fn start(alloc: Global, tree: &Tree) -> Result<ClockTable, NoMemory>
        ensures { IfOk result (KnowsAll tree.now) }
    {
        let programs = start_all(alloc, tree.board())?;
        Ok(ClockTable { programs })
    }

    /// How many operations of a master an operation comes after. It takes two looks.
    #[tactic(auto, using(crate::proofs::KnownLemmas::clock_looks))]
    pub fn clock(&self, op: OpId, other: u16) -> usize
        ensures { (board : Board) → KeepsPolls board self.now →
            result ≡ clock_of board (table_of self.now) op other }
    {
        self.look(op, other)
    }

    /// The same, as the rows have it.
    pub(crate) fn look(&self, op: OpId, other: u16) -> usize
        ensures { result ≡ clock_in self.now op other }
    {
        raised(self.known(op, other), op, usize::from(other))
    }

    /// The same with the operation itself.
    pub(crate) fn look_past(&self, op: OpId, other: u16) -> usize
        ensures { result ≡ clock_past self.now op other }
    {
        past(self.known(op, other), op, usize::from(other))
    }

    /// Whether behind a poll more is known of some master than before it.
    pub fn tells(&self, op: OpId) -> bool
        ensures { result ≡ false → (other : ℕ) →
            table_of self.now op.master op.index other ≤ clock_in self.now op other }
    {
        match self.programs.as_slice().get(usize::from(op.master)) {
            Some(program) => program.tells(op),
            None => false,
        }
    }

    /// Whether of each master one of two operations knows no more, with itself, than is known before
    /// another operation.
    pub(crate) fn tell_nothing(&self, first: OpId, second: OpId, then: OpId) -> bool
        ensures { result ≡ true → (other : ℕ) →
            lesser (clock_past self.now first other) (clock_past self.now second other)
            ≤ clock_in self.now then other }
    {
        let (ones, others) = (self.numbers(first), self.numbers(second));
        let known = self.numbers(then);
        for other in 0..greater(ones.len(), usize::from(first.master) + 1) {
            let one = past(number_at(ones, other), first, other);
            let both = lesser(one, past(number_at(others, other), second, other));
            if raised(number_at(known, other), then, other) < both {
                return false;
            }
        }
        true
    }

    /// Whether one operation comes before another in every run.
    pub fn is_before(&self, first: OpId, then: OpId) -> bool
        ensures { (board : Board) → KeepsPolls board self.now →
            result ≡ nat_lt first.index (clock_of board (table_of self.now) then first.master) }
    {
        usize::from(first.index) < self.clock(then, first.master)
    }

    /// Behind an operation so many operations of a master are known at most, from now on.
    #[tactic(auto, using(crate::proofs::LowerLemmas::of_programs))]
    pub fn lower(&mut self, op: OpId, other: u16, most: usize)
        ensures { LowersAt op other most self.old self.new }
    {
        let master = usize::from(op.master);
        if master < self.programs.len() {
            self.programs[master].lower(usize::from(op.index), usize::from(other), most);
        }
    }

    /// Behind an operation so many operations of each master are known at most, from now on;
    /// whether a number fell.
    #[tactic(auto, using(crate::proofs::FallLemmas::of_programs))]
    pub fn lower_to(&mut self, op: OpId, most: &[usize]) -> bool
        ensures { LowersTo op most.now self.old self.new result }
    {
        let master = usize::from(op.master);
        if master < self.programs.len() {
            self.programs[master].lower_to(usize::from(op.index), most)
        } else {
            false
        }
    }

    /// How many operations of each master are known behind the last poll before an operation.
    pub(crate) fn numbers(&self, op: OpId) -> &[u16]
        ensures { (other : ℕ) → number result.now other ≡ known_in self.now op.master op.index other }
    {
        match self.programs.as_slice().get(usize::from(op.master)) {
            Some(program) => program.numbers_before(op.index),
            None => &[],
        }
    }

    /// The same of one master.
    fn known(&self, op: OpId, other: u16) -> usize
        ensures { result ≡ known_in self.now op.master op.index other }
    {
        number_at(self.numbers(op), usize::from(other))
    }
}

/// What is known behind a poll before an operation, and what stands before it in its program.
pub(crate) fn raised(known: usize, op: OpId, other: usize) -> usize
    ensures { result ≡ raised_at known op other }
{
    if other == usize::from(op.master) {
        greater(known, usize::from(op.index))
    } else {
        known
    }
}

/// The same with the operation itself.
pub(crate) fn past(known: usize, op: OpId, other: usize) -> usize
    ensures { result ≡ past_at known op other }
{
    if other == usize::from(op.master) {
        greater(known, usize::from(op.index) + 1)
    } else {
        known
    }
}

pub(crate) fn lesser(a: usize, b: usize) -> usize
    ensures { result ≡ lesser a b }
{
    if b < a { b } else { a }
}

pub(crate) fn greater(a: usize, b: usize) -> usize
    ensures { result ≡ greater a b }
{
    if a < b { b } else { a }
}

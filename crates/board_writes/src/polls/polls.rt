ghost use Rattle.std.specs.Prelude.{◌≡◌, ◌≤◌, IfOk, length, if◌then◌else◌};
ghost use Rattle.std.specs.Option.{option_copied};
ghost use Rattle.board_tree.specs.Decodable.{IsDecodable};
ghost use Rattle.board_writes.specs.Polls.{KnowsPolls, KnowsProgram, AreMost};
ghost use Rattle.board_writes.specs.Polls.{told_at, raisers_at, raised_at};
ghost use Rattle.board_writes.specs.Rows.{KeepsPolls, table_of};
ghost use Rattle.board_writes.specs.Looks.{IsOrdered, TellAlike};
ghost use Rattle.board_writes.specs.Writes.{ListsWrites};
ghost use Rattle.board_model.specs.Limits.{most_ops};

use crate::known::{ClockTable, raised};
use crate::polls::kept::{KeptPoll, kept_of};
use crate::polls::looks::{known_to_first, most_of};
use crate::row::number_at;
use crate::writers::{WordWrite, Writers};
use board_model::{Board, Master, Op};
use board_tree::Tree;
use pci_command::{NoMemory, OpId};
use std::alloc::Global;
use std::marker::Model;

/// What is kept of the polls of one program, by their places.
#[derive(Debug, Drop)]
struct ProgramPolls {
    polls: Vec<Option<KeptPoll>>,
}

impl Model for ProgramPolls {
    ghost use Rattle.std.specs.Prelude.{List, Option};
    ghost use Rattle.board_writes.specs.Polls.{PollFacts};

    ghost Value = { List (Option PollFacts) };

    ghost view = { λ k. k.polls.items };
}

/// What is kept of the polls of a board, once: what each waits for, and whether it is firm.
#[derive(Debug, Drop)]
pub struct Polls {
    programs: Vec<ProgramPolls>,
}

impl Model for Polls {
    ghost use Rattle.std.specs.Prelude.{List, Option};
    ghost use Rattle.board_writes.specs.Polls.{PollFacts};

    ghost Value = { List (List (Option PollFacts)) };

    ghost view = { λ k. k.programs.items };
}

impl Polls {
    ghost use Rattle.board_model.specs.declared.board.Board.{Board};
    ghost use Rattle.safe_model.specs.largest.Tests.{wish_of, is_told};
    ghost use Rattle.board_writes.specs.Most.{IsMost};
    ghost use Rattle.board_writes.specs.Polls.{is_raised, poll_at};

    /// Of the polls of the board.
    pub fn new(alloc: Global, tree: &Tree, writers: &Writers) -> Result<Polls, NoMemory>
        requires { ListsWrites tree.now writers.now }
        ensures { IfOk result (KnowsPolls tree.now) }
    {
        let programs = all_polls(alloc, tree, writers)?;
        Ok(Polls { programs })
    }

    /// Of each master how many operations may be known behind the poll at most.
    pub fn most_known(
        &self,
        alloc: Global,
        tree: &Tree,
        table: &ClockTable,
        writers: &Writers,
        op: OpId,
    ) -> Result<Vec<usize>, NoMemory>
        requires first { op.attempt ≡ 0 }
        requires polls { KnowsPolls tree.now self.now }
        requires table { KeepsPolls tree.now table.now }
        requires ordered { IsOrdered table.now }
        requires writers { ListsWrites tree.now writers.now }
        ensures { IfOk result (λ numbers. IsMost tree.now (table_of table.now) op numbers.items) }
    {
        let poll = self.of(op);
        let told = is_told(poll, table, writers, op);
        let raisers = raisers(alloc, poll, table, writers, op)?;
        let numbers = most_numbers(alloc, tree, table, op, told, raisers.as_slice())?;
        Ok(numbers)
    }

    /// Whether the poll is told something by what it sees, by the table.
    pub fn is_told(&self, table: &ClockTable, writers: &Writers, op: OpId) -> bool
        requires { op.attempt ≡ 0 }
        ensures { (board : Board) → KnowsPolls board self.now → KeepsPolls board table.now →
            ListsWrites board writers.now →
            result ≡ is_told board (table_of table.now) op (wish_of board op) }
    {
        is_told(self.of(op), table, writers, op)
    }

    /// Whether some run may come to one of the poll's raisers, by the table.
    pub fn is_raised(
        &self,
        alloc: Global,
        table: &ClockTable,
        writers: &Writers,
        op: OpId,
    ) -> Result<bool, NoMemory>
        requires first { op.attempt ≡ 0 }
        requires ordered { IsOrdered table.now }
        ensures { IfOk result (λ yes. (board : Board) → KnowsPolls board self.now →
            KeepsPolls board table.now → ListsWrites board writers.now →
            yes ≡ is_raised board (table_of table.now) op (wish_of board op)) }
    {
        let raised = is_raised(alloc, self.of(op), table, writers, op)?;
        Ok(raised)
    }

    /// Of the poll's raisers those that tell it what all do, if it is told something.
    pub fn raisers(
        &self,
        alloc: Global,
        table: &ClockTable,
        writers: &Writers,
        op: OpId,
    ) -> Result<Vec<WordWrite>, NoMemory>
        requires { IsOrdered table.now }
    {
        raisers(alloc, self.of(op), table, writers, op)
    }

    /// What is kept of the operation.
    fn of(&self, op: OpId) -> Option<&KeptPoll>
        ensures { option_copied result ≡ poll_at self.now op }
    {
        match self.programs.as_slice().get(usize::from(op.master)) {
            Some(program) => program.of(op.index),
            None => None,
        }
    }
}

impl ProgramPolls {
    ghost use Rattle.std.specs.Prelude.{None, get_or};

    fn of(&self, index: u16) -> Option<&KeptPoll>
        ensures { option_copied result ≡ get_or self.now index None }
    {
        match self.polls.as_slice().get(usize::from(index)) {
            Some(found) => found.as_ref(),
            None => None,
        }
    }
}

/// What is kept of the programs of a board.
#[tactic(auto, using(crate::proofs::KeptLemmas::programs_filled))]
fn all_polls(alloc: Global, tree: &Tree, writers: &Writers) -> Result<Vec<ProgramPolls>, NoMemory>
    requires { ListsWrites tree.now writers.now }
    ensures { IfOk result (λ programs. KnowsPolls tree.now programs.items) }
{
    let board = tree.board();
    let mut programs = Vec::new(alloc);
    for (number, master) in board.masters.as_slice().iter().enumerate() {
        programs.push(polls_of(alloc, board, writers, number as u16, master.ops.as_slice())?)?;
    }
    Ok(programs)
}

/// The same of the program of one master.
#[tactic(auto, using(crate::proofs::KeptLemmas::polls_filled))]
fn polls_of(
    alloc: Global,
    board: &Board,
    writers: &Writers,
    master: u16,
    ops: &[Op],
) -> Result<ProgramPolls, NoMemory>
    requires decodable { IsDecodable board.now }
    requires few { length ops.now ≤ most_ops }
    requires writers { ListsWrites board.now writers.now }
    ensures { IfOk result (KnowsProgram board.now master (length ops.now)) }
{
    let mut polls = Vec::new(alloc);
    for place in 0..ops.len() {
        let op = OpId {
            master,
            index: place as u16,
            attempt: 0,
        };
        polls.push(kept_of(board, writers, op))?;
    }
    Ok(ProgramPolls { polls })
}

fn is_told(poll: Option<&KeptPoll>, table: &ClockTable, writers: &Writers, op: OpId) -> bool
    ensures { result ≡ told_at table.now op writers.now (option_copied poll.entry) }
{
    match poll {
        Some(poll) => poll.is_told(table, writers, op),
        None => false,
    }
}

fn is_raised(
    alloc: Global,
    poll: Option<&KeptPoll>,
    table: &ClockTable,
    writers: &Writers,
    op: OpId,
) -> Result<bool, NoMemory>
    requires { IsOrdered table.now }
    ensures { IfOk result
        (λ yes. yes ≡ raised_at table.now op writers.now (option_copied poll.entry)) }
{
    match poll {
        Some(poll) => poll.is_raised(alloc, table, writers, op),
        None => Ok(false),
    }
}

/// Of the raisers of a poll that is told something those that tell it what all do.
fn raisers(
    alloc: Global,
    poll: Option<&KeptPoll>,
    table: &ClockTable,
    writers: &Writers,
    op: OpId,
) -> Result<Vec<WordWrite>, NoMemory>
    requires { IsOrdered table.now }
    ensures { IfOk result (λ found. TellAlike table.now op found.items
        (raisers_at table.now op writers.now (option_copied poll.entry))) }
{
    match poll {
        Some(poll) if poll.is_told(table, writers, op) => poll.raisers(alloc, table, writers, op),
        _ => Ok(Vec::new(alloc)),
    }
}

/// Of each master what may be known behind a poll at most that these raisers tell of, if it is told
/// something.
#[tactic(auto, using(crate::proofs::KeptLemmas::most_filled))]
fn most_numbers(
    alloc: Global,
    tree: &Tree,
    table: &ClockTable,
    op: OpId,
    told: bool,
    raisers: &[WordWrite],
) -> Result<Vec<usize>, NoMemory>
    ensures { IfOk result (λ numbers.
        AreMost tree.now table.now op told raisers.now numbers.items) }
{
    let board = tree.board();
    let (before, firsts) = (table.numbers(op), known_to_first(table, raisers));
    let mut numbers = Vec::new(alloc);
    for (other, master) in board.masters.as_slice().iter().enumerate() {
        let known = raised(number_at(before, other), op, other);
        let most = count_if(told, master);
        numbers.push(most_of(table, raisers, firsts, known, most, other as u16))?;
    }
    Ok(numbers)
}

/// How many operations the program of the master has, if the poll is told something; else none.
fn count_if(told: bool, master: &Master) -> usize
    ensures { result ≡ (if told then length master.now.ops else 0) }
{
    if told { master.ops.as_slice().len() } else { 0 }
}

ghost use Rattle.std.specs.Prelude.{◌≤◌, Contains, IfOk, IfSome, OnOk};
ghost use Rattle.board_tree.specs.Decodable.{IsDecodable};
ghost use Rattle.board_writes.specs.Falls.{sum_all};
ghost use Rattle.safe_table.specs.Bounds.{AreOf, BoundsAll, Fell};

use crate::fall::lower_poll;
use crate::order::order_of;
use audit_clocks::WordTable;
use board_model::{Board, Word, request_of};
use board_tree::Tree;
use board_writes::{ClockTable, Gathered, awaited_by, first_named};
use pci_command::{NoMemory, OpId, Request};
use std::alloc::Global;

/// In which order the polls are looked at, by their places; how often that was done; when each was
/// looked at last; which is the first that waits for the same dword, also by the dword; and by that
/// one when writes of the dword came to know less. So it is seen which polls may fall since they were
/// looked at: of which nothing is claimed.
#[derive(Drop)]
struct Again {
    order: Vec<usize>,
    time: usize,
    looked: Vec<usize>,
    firsts: Vec<usize>,
    waiting: WordTable<usize>,
    touched: Vec<usize>,
}

impl Again {
    /// To begin with all polls may.
    fn of(alloc: Global, board: &Board, ops: &[OpId], order: Vec<usize>) -> Result<Again, NoMemory>
        requires { IsDecodable board.now }
    {
        let mut again = Again {
            order,
            time: 0,
            looked: Vec::new(alloc),
            firsts: Vec::new(alloc),
            waiting: WordTable::new(alloc),
            touched: Vec::new(alloc),
        };
        for (place, op) in ops.iter().enumerate() {
            let first = match awaited_by(board, *op) {
                Some(awaited) => again.first(awaited.word, place)?,
                None => place,
            };
            again.firsts.push(first)?;
            again.looked.push(0)?;
            again.touched.push(0)?;
        }
        Ok(again)
    }

    /// The first poll that waits for the dword, as the one at the place does.
    fn first(&mut self, word: Word, place: usize) -> Result<usize, NoMemory> {
        if let Some(first) = self.waiting.get(word) {
            return Ok(*first);
        }
        self.waiting.put(word, place)?;
        Ok(place)
    }

    /// The place of the poll whose turn it is.
    fn place(&self, turn: usize) -> usize {
        self.order.get(turn).copied().unwrap_or(turn)
    }

    /// The poll at the place, if it may fall: it is looked at now.
    fn take(&mut self, ops: &[OpId], place: usize) -> Option<OpId>
        ensures { IfSome result (λ op. Contains ops.now op) }
    {
        if self.may_fall(place) {
            self.time = self.time.saturating_add(1);
            set(&mut self.looked, place, self.time);
            ops.get(place).copied()
        } else {
            None
        }
    }

    /// Whether it was not looked at since the writes of its dword were touched, or not at all.
    fn may_fall(&self, place: usize) -> bool {
        let first = self.firsts.get(place).copied().unwrap_or(place);
        match (self.looked.get(place), self.touched.get(first)) {
            (Some(looked), Some(touched)) => *looked <= *touched,
            _ => false,
        }
    }

    /// Where a poll fell the next of its program may, and those that wait for what is written between
    /// the two.
    fn mark_behind(&mut self, fell: bool, board: &Board, ops: &[OpId], place: usize)
        requires { IsDecodable board.now }
    {
        match (ops.get(place), ops.get(place.saturating_add(1))) {
            (Some(poll), Some(next)) if fell && next.master == poll.master => {
                set(&mut self.looked, place.saturating_add(1), 0);
                self.mark_written(board, *poll, next.index);
            }
            (Some(poll), _) if fell => self.mark_written(board, *poll, u16::MAX),
            _ => {}
        }
    }

    /// Those that wait for what the program writes behind the poll and before the place.
    fn mark_written(&mut self, board: &Board, poll: OpId, end: u16)
        requires { IsDecodable board.now }
    {
        for index in poll.index.saturating_add(1)..end {
            let op = OpId { index, ..poll };
            match (request_of(board, op, 0), first_named(board, op)) {
                (None, _) => return,
                (Some(request), Some(first)) => self.mark_request(&request, first),
                _ => {}
            }
        }
    }

    /// Those that wait for what the request writes, from the first of its dwords on.
    fn mark_request(&mut self, request: &Request, first: Word) {
        if request.command.is_read() {
            return;
        }
        let mut address = first.address;
        for _ in 0..request.phases.len() {
            let word = Word { address, ..first };
            if let Some(first) = self.waiting.get(word) {
                set(&mut self.touched, *first, self.time);
            }
            address = address.saturating_add(4);
        }
    }
}

fn set(times: &mut Vec<usize>, place: usize, time: usize) {
    if place < times.len() {
        times[place] = time;
    }
}

/// It falls behind all polls, each behind those that it depends on, and then again and again behind
/// those that may fall since others did, until none does.
pub(crate) fn lower_again(
    alloc: Global,
    tree: &Tree,
    gathered: &Gathered,
    table: &mut ClockTable,
    ops: &[OpId],
) -> Result<(), NoMemory>
    requires are { AreOf tree.now gathered.now.writers gathered.now.polls ops.now }
    requires bounds { BoundsAll tree.now table.old }
    ensures low { OnOk result (sum_all table.new ≤ sum_all table.old) }
    ensures bounds { OnOk result (BoundsAll tree.now table.new) }
{
    let order = order_of(alloc, gathered, table, ops)?;
    let mut again = Again::of(alloc, tree.board(), ops, order)?;
    loop {
        let fell = lower_these(alloc, tree, gathered, table, ops, &mut again)?;
        if !fell {
            return Ok(());
        }
    }
}

/// Behind those that may fall now; whether a number fell.
fn lower_these(
    alloc: Global,
    tree: &Tree,
    gathered: &Gathered,
    table: &mut ClockTable,
    ops: &[OpId],
    again: &mut Again,
) -> Result<bool, NoMemory>
    requires are { AreOf tree.now gathered.now.writers gathered.now.polls ops.now }
    requires bounds { BoundsAll tree.now table.old }
    ensures fell { IfOk result (Fell table.old table.new) }
    ensures bounds { OnOk result (BoundsAll tree.now table.new) }
{
    let mut fell = false;
    for turn in 0..ops.len() {
        let place = again.place(turn);
        let op = again.take(ops, place);
        let here = lower_if(alloc, tree, gathered, table, ops, op)?;
        again.mark_behind(here, tree.board(), ops, place);
        fell = fell || here;
    }
    Ok(fell)
}

/// Behind the poll, if there is one; whether a number fell.
fn lower_if(
    alloc: Global,
    tree: &Tree,
    gathered: &Gathered,
    table: &mut ClockTable,
    ops: &[OpId],
    op: Option<OpId>,
) -> Result<bool, NoMemory>
    requires are { AreOf tree.now gathered.now.writers gathered.now.polls ops.now }
    requires bounds { BoundsAll tree.now table.old }
    requires among { IfSome op (λ op. Contains ops.now op) }
    ensures fell { IfOk result (Fell table.old table.new) }
    ensures bounds { OnOk result (BoundsAll tree.now table.new) }
{
    match op {
        Some(op) => {
            let here = lower_poll(alloc, tree, gathered, table, op)?;
            Ok(here)
        }
        None => Ok(false),
    }
}

ghost use Rattle.std.specs.Prelude.{◌≡◌, ◌+◌, ◌<◌, ◌^◌, ◌==◌, IfOk, if◌then◌else◌};
ghost use Rattle.std.specs.List.{list_any};
ghost use Rattle.std.specs.List.Sorted.{IsNonDecreasing};
ghost use Rattle.history_model.specs.declared.event.Mark.TheVariants.{Plain, Discard, Drop};
ghost use Rattle.bus_agents.specs.marks.Marks.{AreNamed};

use board_model::{Board, Lane, Planned};
use history_model::{Carried, Mark};
use pci_command::NoMemory;
use std::alloc::Global;
use std::marker::Model;

/// The discard and drop lines of one lane, and how many of its delayed requests and completions
/// arrived so far.
#[derive(Debug, Drop)]
pub struct LaneMarks {
    asks: u64,
    dones: u64,
    drops: Vec<u32>,
    discards: Vec<u32>,
}

impl Model for LaneMarks {
    ghost use Rattle.std.specs.List.Sorted.{IsNonDecreasing};
    ghost use Rattle.bus_agents.specs.marks.Marks.{MarksView};

    ghost Value = { MarksView };

    ghost view = { λ m. record {
      asks = m.asks;
      dones = m.dones;
      drops = m.drops.items;
      discards = m.discards.items;
    } };

    ghost invariant = { λ m. IsNonDecreasing m.drops.items × IsNonDecreasing m.discards.items };
}

impl LaneMarks {
    ghost use Rattle.history_model.specs.Lanes.{asks_in, dones_in};
    ghost use Rattle.bus_agents.specs.marks.Marks.{MarksStand, MarksArrival};

    /// The lines of the lane, before anything arrived on it.
    pub fn new(alloc: Global, board: &Board, lane: Lane) -> Result<LaneMarks, NoMemory>
        ensures { IfOk result (MarksStand board.now lane 0 0) }
    {
        Ok(LaneMarks {
            asks: 0,
            dones: 0,
            drops: numbers_on(alloc, board.drops.as_slice(), lane)?,
            discards: numbers_on(alloc, board.discards.as_slice(), lane)?,
        })
    }

    /// How the board marks the item, which arrives next on the lane. It is counted. A delayed
    /// request that a drop line names is dropped, a completion that a discard line names discarded;
    /// all other arrivals are plain. It takes no memory.
    pub fn mark(&mut self, item: Carried) -> Mark
        requires asks { self.old.asks + 1 < 2 ^ 64 }
        requires dones { self.old.dones + 1 < 2 ^ 64 }
        ensures arrival { MarksArrival self.old item result self.new }
        ensures asks { self.new.asks ≡ self.old.asks + asks_in item }
        ensures dones { self.new.dones ≡ self.old.dones + dones_in item }
    {
        match item {
            Carried::Ask { .. } => self.ask(),
            Carried::Done { .. } => self.done(),
            Carried::Post { .. } | Carried::Room | Carried::Gone { .. } => Mark::Plain,
        }
    }

    /// A delayed request arrives.
    fn ask(&mut self) -> Mark
        requires { self.old.asks + 1 < 2 ^ 64 }
        ensures mark { result ≡ (if list_any
            (λ number. number == self.old.asks + 1) self.old.drops then Drop else Plain) }
        ensures counted { self.new ≡ record self.old { asks = self.old.asks + 1 } }
    {
        self.asks += 1;
        if is_among(self.drops.as_slice(), self.asks) {
            Mark::Drop
        } else {
            Mark::Plain
        }
    }

    /// A completion arrives.
    fn done(&mut self) -> Mark
        requires { self.old.dones + 1 < 2 ^ 64 }
        ensures mark { result ≡ (if list_any
            (λ number. number == self.old.dones + 1) self.old.discards then Discard else Plain) }
        ensures counted { self.new ≡ record self.old { dones = self.old.dones + 1 } }
    {
        self.dones += 1;
        if is_among(self.discards.as_slice(), self.dones) {
            Mark::Discard
        } else {
            Mark::Plain
        }
    }
}

/// The numbers that the lines name on the lane; they do not fall.
fn numbers_on(alloc: Global, lines: &[Planned], lane: Lane) -> Result<Vec<u32>, NoMemory>
    ensures rise { IfOk result (λ numbers. IsNonDecreasing numbers.items) }
    ensures named { IfOk result (λ numbers. AreNamed lane lines.now numbers.items) }
{
    let mut numbers = named_on(alloc, lines, lane)?;
    numbers.sort_unstable();
    Ok(numbers)
}

/// The numbers that the lines name on the lane, in the order of the lines.
fn named_on(alloc: Global, lines: &[Planned], lane: Lane) -> Result<Vec<u32>, NoMemory>
    ensures { IfOk result (λ numbers. AreNamed lane lines.now numbers.items) }
{
    let mut numbers = Vec::new(alloc);
    for line in lines {
        if line.bus == lane.bus && line.up == lane.up {
            numbers.push(line.count)?;
        }
    }
    Ok(numbers)
}

/// Whether the number is one of these, which do not fall.
fn is_among(numbers: &[u32], number: u64) -> bool
    requires { IsNonDecreasing numbers.now }
    ensures { result ≡ list_any (λ one. one == number) numbers.now }
{
    match u32::try_from(number) {
        Ok(number) => has(numbers, number),
        Err(_) => false,
    }
}

fn has(numbers: &[u32], number: u32) -> bool
    requires { IsNonDecreasing numbers.now }
    ensures { result ≡ list_any (λ one. one == number) numbers.now }
{
    numbers.binary_search(&number).is_ok()
}

ghost use Rattle.std.specs.Prelude.{◌≡◌, ◌<◌, ℕ, true, Some, length, slice_get, IfOk};
ghost use Rattle.std.proofs.Math.ListN.{set};
ghost use Rattle.history_model.specs.Next.{first_in};
ghost use Rattle.judge_state.specs.State.{bus_at, bus_by};
ghost use Rattle.judge_next.specs.Lines.{AreLines, lanes_ending, all_lanes};
ghost use Rattle.judge_next.specs.Now.{arrival_now};
ghost use Rattle.judge_next.specs.Flights.{claiming, presenting, is_nil, is_still, looked, KnowsStill};

use crate::lines::Lines;
use board_model::{Board, Lane, Place};
use history_model::{By, Carried, Event};
use judge_state::Kept;
use machine_steps::arrival_of;
use pci_command::NoMemory;
use std::alloc::Global;

/// Where something may be in flight: all lanes of the board in the order in which the next arrival is
/// looked for, and by bus which bridges are known to have nothing in flight.
#[derive(Debug, Drop)]
pub(crate) struct LaneFlights {
    lanes: Vec<Lane>,
    still: Vec<bool>,
}

impl LaneFlights {
    ghost use Rattle.history_model.specs.Next.{first_bus};
    ghost use Rattle.judge_next.specs.Now.{arrival_on};
    ghost use Rattle.judge_next.specs.Flights.{KnowsFlights};

    /// The lanes of the board with these lines, and what is known by what is kept.
    pub(crate) fn new(
        alloc: Global,
        kept: &Kept,
        board: &Board,
        lines: &[Lines],
    ) -> Result<LaneFlights, NoMemory>
        requires { AreLines board.now lines.now }
        ensures { IfOk result (KnowsFlights board.now kept.now) }
    {
        let lanes = all_lanes(alloc, board, lines)?;
        let still = all_still(alloc, kept, board)?;
        Ok(LaneFlights { lanes, still })
    }

    /// The first arrival, by increasing bus and there by line.
    pub(crate) fn first(&self, kept: &Kept, board: &Board) -> Option<Event>
        requires { KnowsFlights board.now kept.now self.now }
        ensures { result ≡ first_bus (arrival_on board.now kept.now) }
    {
        first_arrival(kept, board, self.lanes.as_slice(), &self.still)
    }

    /// What is known of the bridges that the event sent over, by what is kept after it.
    pub(crate) fn look_again(&mut self, kept: &Kept, board: &Board, event: &Event)
        requires { length self.old.still.items ≡ 256 }
        ensures lanes { self.new.lanes ≡ self.old.lanes }
        ensures still { self.new.still.items ≡ looked board.now kept.now (presenting event.now)
            (looked board.now kept.now (claiming event.now) self.old.still.items) }
    {
        look_at(&mut self.still, kept, board, claiming(event));
        look_at(&mut self.still, kept, board, presenting(event));
    }
}

/// All lanes of the board with these lines.
fn all_lanes(alloc: Global, board: &Board, lines: &[Lines]) -> Result<Vec<Lane>, NoMemory>
    requires { AreLines board.now lines.now }
    ensures { IfOk result (λ lanes. lanes.items ≡ all_lanes board.now) }
{
    let mut lanes = Vec::new(alloc);
    for bus in 0..256u16 {
        lanes.extend_from_slice(lanes_at(board, lines, bus as u8))?;
    }
    Ok(lanes)
}

/// The lanes that end on the bus.
fn lanes_at<'a>(board: &Board, lines: &'a [Lines], bus: u8) -> &'a [Lane]
    requires { AreLines board.now lines.now }
    ensures { result.now ≡ lanes_ending 256 board.now bus }
{
    match lines.get(bus as usize) {
        Some(lines) => lines.lanes(),
        None => &[],
    }
}

/// Of each of 256 buses whether nothing is in flight on the lanes of the bridge to it.
fn all_still(alloc: Global, kept: &Kept, board: &Board) -> Result<Vec<bool>, NoMemory>
    ensures all { IfOk result (λ still. length still.items ≡ 256) }
    ensures each { IfOk result (λ still. (bus : ℕ) → bus < 256 →
        slice_get still.items bus ≡ Some (is_still board.now kept.now bus)) }
{
    let mut still = Vec::new(alloc);
    for bus in 0..256u16 {
        still.push(is_still(kept, board, bus as u8))?;
    }
    Ok(still)
}

/// Whether nothing is in flight on the lanes of the bridge to the bus.
fn is_still(kept: &Kept, board: &Board, bus: u8) -> bool
    ensures { result ≡ is_still board.now kept.now bus }
{
    match kept.lanes_to(board, bus) {
        Some(lanes) => is_nil(lanes.lane(false).flight()) && is_nil(lanes.lane(true).flight()),
        None => true,
    }
}

fn is_nil(items: &[Carried]) -> bool
    ensures { result ≡ is_nil items.now }
{
    match items {
        [] => true,
        [_, ..] => false,
    }
}

/// The first arrival on these lanes. Those of bridges that are known to be still are passed over.
fn first_arrival(kept: &Kept, board: &Board, lanes: &[Lane], still: &Vec<bool>) -> Option<Event>
    requires all { length still.now.items ≡ 256 }
    requires known { KnowsStill board.now kept.now still.now.items }
    ensures { result ≡ first_in (arrival_now board.now kept.now) lanes.now }
{
    for lane in lanes {
        if let Some(event) = arrival_on_lane(kept, board, still, *lane) {
            return Some(event);
        }
    }
    None
}

fn arrival_on_lane(kept: &Kept, board: &Board, still: &Vec<bool>, lane: Lane) -> Option<Event>
    requires all { length still.now.items ≡ 256 }
    requires known { KnowsStill board.now kept.now still.now.items }
    ensures { result ≡ arrival_now board.now kept.now lane }
{
    if is_known(still, lane.bus) {
        return None;
    }
    arrival_of(lane, kept.next_mark(board, lane))
}

/// Whether the bridge to the bus is known to be still.
pub(crate) fn is_known(still: &Vec<bool>, bus: u8) -> bool
    requires { length still.now.items ≡ 256 }
    ensures { result ≡ true → slice_get still.now.items bus ≡ Some true }
{
    still[bus as usize]
}

/// What is known of the bridge to the bus, if there is one to look at.
fn look_at(still: &mut Vec<bool>, kept: &Kept, board: &Board, bus: Option<u8>)
    requires { length still.old.items ≡ 256 }
    ensures all { length still.new.items ≡ 256 }
    ensures known { still.new.items ≡ looked board.now kept.now bus still.old.items }
{
    if let Some(bus) = bus {
        note(still, bus, is_still(kept, board, bus));
    }
}

pub(crate) fn note(still: &mut Vec<bool>, bus: u8, is_still: bool)
    requires { length still.old.items ≡ 256 }
    ensures all { length still.new.items ≡ 256 }
    ensures known { still.new.items ≡ set still.old.items bus is_still }
{
    still[bus as usize] = is_still;
}

/// The bus of the bridge whose lane claims, or on whose lane something arrives.
fn claiming(event: &Event) -> Option<u8>
    ensures { result ≡ claiming event.now }
{
    match *event {
        Event::Act {
            place: Place::Lane(lane),
            ..
        }
        | Event::Arrive { lane, .. } => Some(lane.bus),
        Event::Act { .. } => None,
    }
}

/// The bus of the bridge whose lane presents.
fn presenting(event: &Event) -> Option<u8>
    ensures { result ≡ presenting event.now }
{
    match *event {
        Event::Act {
            by: By::Lane(lane),
            ..
        } => Some(lane.bus),
        Event::Act { .. } | Event::Arrive { .. } => None,
    }
}

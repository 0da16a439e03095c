ghost use Rattle.std.specs.Prelude.{◌≡◌, ◌==◌, Some, slice_get};
ghost use Rattle.list_facts.specs.Lists.{changed_at};
ghost use Rattle.judge_state.specs.Rooms.{RoomAt};
ghost use Rattle.judge_lanes.specs.Bridge.{lanes_after};
ghost use Rattle.std.specs.Option.{option_copied};
ghost use Rattle.std.specs.List.{position};
ghost use Rattle.history_model.specs.Answers.{presents_by};
ghost use Rattle.judge_state.specs.State.{place_of, lanes_at, bus_at, bus_by, other_than};
ghost use Rattle.judge_state.specs.Found.{found_at};

use board_model::{Board, Lane, Place};
use history_model::{By, Event, Mark, Moved, Rule};
use judge_lanes::{BridgeLanes, mark_of_first};
use machine_steps::may_go;
use pci_command::{NoMemory, OpId};
use std::alloc::Global;
use std::marker::Model;

/// The lanes of each bridge, in the order of the board.
#[derive(Debug, Drop)]
pub(crate) struct KeptLanes {
    lanes: Vec<BridgeLanes>,
}

impl Model for KeptLanes {
    ghost use Rattle.std.specs.Prelude.{List};
    ghost use Rattle.history_model.specs.Lanes.{Both};

    ghost Value = { List Both };

    ghost view = { λ k. k.lanes.items };
}

impl KeptLanes {
    ghost use Rattle.std.specs.Prelude.{IfOk};
    ghost use Rattle.judge_state.specs.First.{lanes_at_first};
    ghost use Rattle.judge_state.specs.State.{lanes_in, lane_in, mark_in, lanes_next, happens_on};
    ghost use Rattle.judge_state.specs.Found.{found_next, found_to};
    ghost use Rattle.judge_state.specs.Rooms.{HaveRooms, RoomOn};

    /// Nothing is on any lane.
    pub(crate) fn new(alloc: Global, board: &Board) -> Result<KeptLanes, NoMemory>
        ensures { IfOk result (λ lanes. lanes ≡ lanes_at_first board.now) }
    {
        let bridges = board.bridges.as_slice();
        let lanes = bridges.iter().map(|_| BridgeLanes::new()).collect(alloc)?;
        Ok(KeptLanes { lanes })
    }

    /// The lanes of the bridge to the bus.
    pub(crate) fn to(&self, board: &Board, bus: u8) -> Option<&BridgeLanes>
        ensures { option_copied result ≡ lanes_in board.now self.now bus }
    {
        match place_of(board, bus) {
            Some(place) => self.lanes.as_slice().get(place),
            None => None,
        }
    }

    /// Whether a lane presents what stands on it of the operation, by the rule of the bridge.
    pub(crate) fn presents(&self, board: &Board, rule: Rule, lane: Lane, bus: u8, op: OpId) -> bool
        ensures { result ≡
            presents_by rule board.now bus op (lane_in board.now self.now lane).standing }
    {
        match self.to(board, lane.bus) {
            Some(lanes) => may_go(board, rule, bus, op, lanes.lane(lane.up).standing()),
            None => false,
        }
    }

    /// The mark of the next arrival on the lane.
    pub(crate) fn next_mark(&self, board: &Board, lane: Lane) -> Option<Mark>
        ensures { result ≡ mark_in board.now self.now lane }
    {
        match self.to(board, lane.bus) {
            Some(lanes) => mark_of_first(board, lane, lanes.lane(lane.up)),
            None => None,
        }
    }

    /// One more event happens by the rule of the bridge to the lanes that it changes; and what it
    /// found on them.
    pub(crate) fn happen(&mut self, board: &Board, rule: Rule, event: &Event) -> Moved
        requires { HaveRooms board.now self.old }
        ensures lanes { self.new ≡ lanes_next rule board.now event.now self.old }
        ensures found { result ≡ found_next rule board.now event.now self.old }
    {
        match *event {
            Event::Act { by, place, .. } => {
                let first = bus_at(place);
                let claimed = self.happen_on(board, rule, event, first);
                let ended = self.happen_on(board, rule, event, other_than(first, bus_by(by)));
                Moved {
                    slot: claimed.slot,
                    item: claimed.item.or(ended.item),
                }
            }
            Event::Arrive { lane, .. } => self.happen_on(board, rule, event, Some(lane.bus)),
        }
    }

    /// One more event happens to the lanes of the bridge to the bus, if there is one.
    fn happen_on(&mut self, board: &Board, rule: Rule, event: &Event, bus: Option<u8>) -> Moved
        requires { RoomOn board.now self.old bus }
        ensures lanes { self.new ≡ happens_on rule board.now event.now bus self.old }
        ensures found { result ≡ found_to rule board.now event.now bus self.old }
    {
        match bus {
            Some(bus) => self.happen_at(board, rule, event, bus, place_of(board, bus)),
            None => NOTHING,
        }
    }

    /// One more event happens to the lanes at this place, of the bridge to the bus.
    fn happen_at(
        &mut self,
        board: &Board,
        rule: Rule,
        event: &Event,
        bus: u8,
        place: Option<usize>,
    ) -> Moved
        requires { RoomAt self.old place }
        ensures lanes { self.new ≡
            changed_at (lanes_after rule board.now event.now bus) self.old place }
        ensures found { result ≡
            found_at rule board.now event.now bus (lanes_at self.old place) }
    {
        match place {
            Some(place) => { happen_to(self.lanes.as_mut_slice(), board, rule, event, bus, place) }
            None => NOTHING,
        }
    }
}

/// Where nothing moves.
const NOTHING: Moved = Moved {
    slot: None,
    item: None,
};

fn happen_to(
    lanes: &mut [BridgeLanes],
    board: &Board,
    rule: Rule,
    event: &Event,
    bus: u8,
    place: usize,
) -> Moved
    requires { RoomAt lanes.old (Some place) }
    ensures lanes { lanes.new ≡
        changed_at (lanes_after rule board.now event.now bus) lanes.old (Some place) }
    ensures found { result ≡
        found_at rule board.now event.now bus (slice_get lanes.old place) }
{
    if place < lanes.len() {
        lanes[place].happen(board, rule, event, bus)
    } else {
        NOTHING
    }
}

fn bus_at(place: Place) -> Option<u8>
    ensures { result ≡ bus_at place }
{
    match place {
        Place::Lane(lane) => Some(lane.bus),
        Place::Target(_) | Place::Header(_) | Place::Nobody => None,
    }
}

fn bus_by(by: By) -> Option<u8>
    ensures { result ≡ bus_by by }
{
    match by {
        By::Lane(lane) => Some(lane.bus),
        By::Master => None,
    }
}

/// The second bus, where it is not the first.
fn other_than(first: Option<u8>, second: Option<u8>) -> Option<u8>
    ensures { result ≡ other_than first second }
{
    match (first, second) {
        (Some(first), Some(second)) if first == second => None,
        _ => second,
    }
}

/// The place of the bridge to the bus.
fn place_of(board: &Board, bus: u8) -> Option<usize>
    ensures { result ≡ place_of board.now bus }
{
    board
        .bridges
        .as_slice()
        .iter()
        .position(|bridge| bridge.bus == bus)
}

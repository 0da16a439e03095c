ghost use Rattle.std.specs.Prelude.{◌≡◌, ◌+◌, ◌-◌, ◌<◌, ◌≤◌, ◌==◌, ◌&&◌, ◌||◌};
ghost use Rattle.std.specs.Prelude.{true, false, length, max, vec_len, IfOk};
ghost use Rattle.std.specs.Vec.{vec_capacity};
ghost use Rattle.board_model.specs.Valid.{IsValid};
ghost use Rattle.bus_core.specs.Bus.{shape_of};
ghost use Rattle.bus_segment.specs.Settle.{MaySettle, SettlesAt};
ghost use Rattle.bus_segment.specs.Steps.{StampsRise, ArrivedUpTo};
ghost use Rattle.bus_segment.specs.Turn.{Does, IsQuietAtZero};
ghost use Rattle.bus_segment.specs.turns.Works.{GivesOnlyRetries};
ghost use Rattle.bus_segment.specs.turns.Again.{MayTurn, DoesTurn};
ghost use Rattle.board_model.specs.Limits.{most_agents, room_of_a_turn, most_ports, most_of_a_turn};

use crate::Segment;
use crate::turns::receiving::receive_all;
use crate::turns::serving::serve_all;
use board_tree::Tree;
use bus_agents::Arbiter;
use history_model::Stamped;
use lane_items::LaneEnd;
use pci_command::{List, NoMemory};

/// One bus as it is worked: its segment, and the arbiter that grants the bus.
#[derive(Drop)]
pub struct Worker<L: LaneEnd + Drop> {
    segment: Segment<L>,
    arbiter: Arbiter,
}

impl<L: LaneEnd + Drop> Worker<L> {
    /// A bus that is worked from now on.
    pub fn new(segment: Segment<L>) -> Worker<L>
        ensures { result.segment ≡ segment }
    {
        Worker {
            segment,
            arbiter: Arbiter::new(),
        }
    }

    /// The number of the bus.
    pub fn bus(&self) -> u8
        ensures { result ≡ self.now.segment.bus.bus }
    {
        self.segment.bus().number()
    }

    /// The stamp of its last event, or the one with which it began.
    pub fn stamp(&self) -> u32
        ensures { result ≡ self.now.segment.stamp }
    {
        self.segment.stamp()
    }

    /// For how many more events there is room.
    pub fn spare(&self) -> usize
        ensures { result ≡ vec_capacity self.now.segment.events - vec_len self.now.segment.events }
    {
        self.segment.spare()
    }

    /// How many events it recorded.
    pub fn recorded(&self) -> usize
        ensures { result ≡ length self.now.segment.events.items }
    {
        self.segment.recorded()
    }

    /// The events that it recorded, oldest first.
    pub fn events(&self) -> &[Stamped]
        ensures { result.now ≡ self.now.segment.events.items }
    {
        self.segment.events()
    }

    /// Whether it does nothing more.
    pub fn stopped(&self) -> bool
        ensures { result ≡ self.now.segment.stopped }
    {
        self.segment.stopped()
    }

    /// Later events have stamps from this number on.
    pub fn begin(&mut self, stamp: u32)
        ensures stamp { self.new.segment.stamp ≡ max self.old.segment.stamp stamp }
        ensures bus { self.new.segment.bus ≡ self.old.segment.bus }
        ensures ends { self.new.segment.ends.items ≡ self.old.segment.ends.items }
        ensures stopped { self.new.segment.stopped ≡ self.old.segment.stopped }
        ensures events { self.new.segment.events.items ≡ self.old.segment.events.items }
        ensures spare { vec_capacity self.new.segment.events ≡
            vec_capacity self.old.segment.events }
        ensures arbiter { self.new.arbiter ≡ self.old.arbiter }
    {
        self.segment.begin(stamp);
    }

    /// Takes memory for 8,192 more events: those of many turns.
    pub fn reserve(&mut self) -> Result<(), NoMemory>
        ensures spare { IfOk result (λ _.
            8192 ≤ vec_capacity self.new.segment.events - vec_len self.new.segment.events) }
        ensures bus { self.new.segment.bus ≡ self.old.segment.bus }
        ensures ends { self.new.segment.ends.items ≡ self.old.segment.ends.items }
        ensures stamp { self.new.segment.stamp ≡ self.old.segment.stamp }
        ensures stopped { self.new.segment.stopped ≡ self.old.segment.stopped }
        ensures events { self.new.segment.events.items ≡ self.old.segment.events.items }
        ensures arbiter { self.new.arbiter ≡ self.old.arbiter }
    {
        self.segment.reserve()
    }

    /// Receives what came over the bridges of the bus, up to as many items from each as may wait, and then serves
    /// once each initiator that presents something, in the order in which the arbiter grants the
    /// bus; how many events that made. The board is that of the segment.
    pub fn turn(&mut self, board: &Tree) -> u32
        requires valid { IsValid board.now }
        requires going { self.old.segment.stopped ≡ false }
        requires ends { length self.old.segment.ends.items ≡ length self.old.segment.bus.ports }
        requires few { (length self.old.segment.bus.ports ≤ most_ports) ×
            (length self.old.segment.bus.masters ≤ most_agents) }
        requires counts { ArrivedUpTo (length self.old.segment.events.items) self.old.segment.bus }
        requires spare { room_of_a_turn ≤
            vec_capacity self.old.segment.events - vec_len self.old.segment.events }
        ensures does { Does L.had L.sent L.got L.kept L.paired board.now
            (record {
              bus = self.old.segment.bus;
              stamp = self.old.segment.stamp;
              stopped = self.old.segment.stopped;
            }) (record {
              bus = self.new.segment.bus;
              stamp = self.new.segment.stamp;
              stopped = self.new.segment.stopped;
            }) self.old.segment.ends.items self.new.segment.ends.items self.old.segment.events.items
            self.new.segment.events.items }
        ensures shape { shape_of self.new.segment.bus ≡ shape_of self.old.segment.bus }
        ensures ends { length self.new.segment.ends.items ≡ length self.old.segment.ends.items }
        ensures counts { self.new.segment.stopped ≡ false →
            ArrivedUpTo (length self.new.segment.events.items) self.new.segment.bus }
        ensures many { length self.new.segment.events.items ≡
            length self.old.segment.events.items + result }
        ensures few { result ≤ most_of_a_turn }
        ensures quiet { IsQuietAtZero L.had L.got board.now
            (record {
              bus = self.old.segment.bus;
              stamp = self.old.segment.stamp;
              stopped = self.old.segment.stopped;
            }) (record {
              bus = self.new.segment.bus;
              stamp = self.new.segment.stamp;
              stopped = self.new.segment.stopped;
            }) self.new.segment.ends.items result }
        ensures stamps { StampsRise L.sent L.got self.old.segment.stamp self.new.segment.stamp
            self.old.segment.ends.items self.new.segment.ends.items }
    {
        self.turn_again(board, false)
    }

    /// The same, where the bus may be known to be idle: whoever presents something there gets a Retry,
    /// as after a turn that made no event. So if nothing is received then, nobody is served.
    pub fn turn_again(&mut self, board: &Tree, idle: bool) -> u32
        requires may { MayTurn board.now self.old }
        requires idle { idle ≡ true → GivesOnlyRetries board.now self.old.segment.bus }
        ensures turn { DoesTurn L.had L.sent L.got L.kept L.paired board.now self.old self.new result }
        ensures idle { result ≡ 0 → self.new.segment.stopped ≡ false →
            GivesOnlyRetries board.now self.new.segment.bus }
    {
        let before = self.segment.recorded();
        receive_all(&mut self.segment, board.board());
        let came = (self.segment.recorded() - before) as u32;
        if rests(self.segment.stopped(), idle, came) {
            return came;
        }
        serve_all(&mut self.segment, &mut self.arbiter, board);
        (self.segment.recorded() - before) as u32
    }

    /// Ends a phase of the bridge between this worker's port at the place and the other worker's
    /// port at the other place, as `Segment::settle_with` does.
    pub fn settle_with(&mut self, place: usize, other: &mut Worker<L>, other_place: usize)
        requires place { place < length self.old.segment.ends.items }
        requires other_place { other_place < length other.old.segment.ends.items }
        requires may { MaySettle L.had L.sent L.got L.kept L.paired self.old.segment.ends.items
            place other.old.segment.ends.items other_place }
        ensures settles { SettlesAt L.had L.sent L.got L.kept L.paired self.old.segment.ends.items
            place other.old.segment.ends.items other_place self.new.segment.ends.items
            other.new.segment.ends.items }
        ensures bus { self.new.segment.bus ≡ self.old.segment.bus }
        ensures stamp { self.new.segment.stamp ≡ self.old.segment.stamp }
        ensures stopped { self.new.segment.stopped ≡ self.old.segment.stopped }
        ensures events { self.new.segment.events.items ≡ self.old.segment.events.items }
        ensures other_bus { other.new.segment.bus ≡ other.old.segment.bus }
        ensures other_stamp { other.new.segment.stamp ≡ other.old.segment.stamp }
        ensures other_stopped { other.new.segment.stopped ≡ other.old.segment.stopped }
        ensures other_events { other.new.segment.events.items ≡ other.old.segment.events.items }
    {
        self.segment
            .settle_with(place, &mut other.segment, other_place);
    }

    /// All its events, oldest first.
    pub fn take_events(self) -> List<Stamped>
        ensures { result ≡ self.segment.events.items }
    {
        let Worker {
            segment,
            arbiter: _,
        } = self;
        segment.take_events()
    }
}

/// Nobody is served where the segment stopped, or where the bus is idle and nothing came.
fn rests(stopped: bool, idle: bool, came: u32) -> bool
    ensures { result ≡ (stopped || (idle && (came == 0))) }
{
    stopped || (idle && came == 0)
}

ghost use Rattle.std.specs.Prelude.{◌≡◌, ◌+◌, ◌-◌, ◌<◌, ◌≤◌, ◌^◌, ◌++◌, [], ◌∷◌, true, false};
ghost use Rattle.std.specs.Prelude.{length, max, slice_get, vec_len, IfOk, IfSome, IsTrue};
ghost use Rattle.std.specs.List.{Contains};
ghost use Rattle.std.specs.Vec.{vec_capacity};
ghost use Rattle.bus_core.specs.declared.given.Served.TheVariants.{Did};
ghost use Rattle.board_model.specs.Valid.{IsValid};
ghost use Rattle.board_model.specs.WellFormed.{is_well_formed};
ghost use Rattle.bus_face.specs.Offers.{offers_of};
ghost use Rattle.bus_core.specs.Bus.{shape_of, arrivals_at};
ghost use Rattle.bus_core.specs.Serves.{SendsApart, OneMoreAt};
ghost use Rattle.bus_segment.specs.Steps.{StampsRise, NothingCame, IsOfMaster, IsOfLane, Retries};
ghost use Rattle.bus_segment.specs.Turn.{Does, Records, Finishes, Keeps, Takes};
ghost use Rattle.board_model.specs.Limits.{most_ports};

use crate::ends::{has_room, receive_at, send_at, send_both, sent_at, stamp_of};
use board_model::{Board, Lane};
use board_tree::Tree;
use bus_core::{Acted, Arrival, Bus, Served};
use bus_face::Offer;
use history_model::{Event, Stamped};
use lane_items::{Item, LaneEnd};
use pci_command::{List, NoMemory};
use std::alloc::Global;

/// One bus between the ends of its bridges' lanes.
#[derive(Drop)]
pub struct Segment<L: LaneEnd + Drop> {
    bus: Bus,
    pub(crate) ends: Vec<L>,
    stamp: u32,
    stopped: bool,
    events: Vec<Stamped>,
}

impl<L: LaneEnd + Drop> Segment<L> {
    /// A bus and the ends of its bridges' lanes there, in the order of its ports, before the first
    /// event. It takes no memory.
    pub fn new(alloc: Global, bus: Bus, ends: Vec<L>) -> Segment<L>
        ensures bus { result.bus ≡ bus }
        ensures ends { result.ends.items ≡ ends.items }
        ensures stamp { result.stamp ≡ 0 }
        ensures goes { result.stopped ≡ false }
        ensures none { result.events.items ≡ [] }
    {
        Segment {
            bus,
            ends,
            stamp: 0,
            stopped: false,
            events: Vec::new(alloc),
        }
    }

    /// The bus, and all that is on it.
    pub fn bus(&self) -> &Bus
        ensures { result.now ≡ self.now.bus }
    {
        &self.bus
    }

    /// The stamp of its last event, or the one with which it began.
    pub fn stamp(&self) -> u32
        ensures { result ≡ self.now.stamp }
    {
        self.stamp
    }

    /// Whether it does nothing more.
    pub fn stopped(&self) -> bool
        ensures { result ≡ self.now.stopped }
    {
        self.stopped
    }

    /// Later events have stamps from this number on.
    pub fn begin(&mut self, stamp: u32)
        ensures stamp { self.new.stamp ≡ max self.old.stamp stamp }
        ensures bus { self.new.bus ≡ self.old.bus }
        ensures ends { self.new.ends.items ≡ self.old.ends.items }
        ensures stopped { self.new.stopped ≡ self.old.stopped }
        ensures events { self.new.events.items ≡ self.old.events.items }
        ensures spare { vec_capacity self.new.events ≡ vec_capacity self.old.events }
    {
        self.stamp = self.stamp.max(stamp);
    }

    /// Takes memory for 8,192 more events: those of many turns.
    pub fn reserve(&mut self) -> Result<(), NoMemory>
        ensures spare { IfOk result (λ _.
            8192 ≤ vec_capacity self.new.events - vec_len self.new.events) }
        ensures bus { self.new.bus ≡ self.old.bus }
        ensures ends { self.new.ends.items ≡ self.old.ends.items }
        ensures stamp { self.new.stamp ≡ self.old.stamp }
        ensures stopped { self.new.stopped ≡ self.old.stopped }
        ensures events { self.new.events.items ≡ self.old.events.items }
    {
        self.events.reserve(8_192)?;
        Ok(())
    }

    /// How many events it recorded.
    pub fn recorded(&self) -> usize
        ensures { result ≡ length self.now.events.items }
    {
        self.events.len()
    }

    /// The events that it recorded, oldest first.
    pub fn events(&self) -> &[Stamped]
        ensures { result.now ≡ self.now.events.items }
    {
        self.events.as_slice()
    }

    /// For how many more events there is room.
    pub fn spare(&self) -> usize
        ensures spare { result ≡ vec_capacity self.now.events - vec_len self.now.events }
        ensures counted { vec_capacity self.now.events < 2 ^ 64 }
    {
        self.events.capacity() - self.events.len()
    }

    /// All its events, oldest first.
    pub fn take_events(self) -> List<Stamped>
        ensures { result ≡ self.events.items }
    {
        let Segment {
            bus: _,
            ends: _,
            stamp: _,
            stopped: _,
            events,
        } = self;
        List::from_vec(events)
    }

    /// The master at this place is granted the bus: it presents its turn, if its program did not
    /// end.
    pub fn serve_master(&mut self, board: &Tree, place: u8)
        requires formed { IsTrue (is_well_formed board.now) }
        requires place { place < length self.old.bus.masters }
        requires few { most_ports + place < 256 }
        requires ends { length self.old.ends.items ≡ length self.old.bus.ports }
        requires goes { self.old.stopped ≡ false }
        requires spare { vec_len self.old.events < vec_capacity self.old.events }
        ensures does { Does L.had L.sent L.got L.kept L.paired board.now
            (record { bus = self.old.bus; stamp = self.old.stamp; stopped = false })
            (record { bus = self.new.bus; stamp = self.old.stamp; stopped = self.new.stopped })
            self.old.ends.items self.new.ends.items self.old.events.items self.new.events.items }
        ensures shape { shape_of self.new.bus ≡ shape_of self.old.bus }
        ensures arrivals { arrivals_at self.new.bus ≡ arrivals_at self.old.bus }
        ensures stamp { self.new.stamp ≡ self.old.stamp }
        ensures stamps { StampsRise L.sent L.got self.old.stamp self.new.stamp self.old.ends.items
            self.new.ends.items }
        ensures most { length self.new.events.items ≤ length self.old.events.items + 1 }
        ensures spare { vec_capacity self.old.events ≤ vec_capacity self.new.events }
        ensures quiet { length self.new.events.items ≡ length self.old.events.items →
            self.new.stopped ≡ false →
            Retries board.now self.old.bus self.new.bus self.old.ends.items self.new.ends.items
            (IsOfMaster (shape_of self.old.bus) place) }
    {
        let presented = self.bus.serve_master(board, place, self.stamp);
        self.finish(presented);
    }

    /// The lane of the port at this place is granted the bus, and presents what it offers.
    pub fn serve_offer(&mut self, board: &Tree, place: u8, offer: &Offer)
        requires formed { IsTrue (is_well_formed board.now) }
        requires place { place < length self.old.bus.ports }
        requires offered { IfSome (slice_get self.old.bus.ports place)
            (λ port. Contains (offers_of port.face) offer.now) }
        requires ends { length self.old.ends.items ≡ length self.old.bus.ports }
        requires goes { self.old.stopped ≡ false }
        requires spare { vec_len self.old.events < vec_capacity self.old.events }
        ensures does { Does L.had L.sent L.got L.kept L.paired board.now
            (record { bus = self.old.bus; stamp = self.old.stamp; stopped = false })
            (record { bus = self.new.bus; stamp = self.old.stamp; stopped = self.new.stopped })
            self.old.ends.items self.new.ends.items self.old.events.items self.new.events.items }
        ensures shape { shape_of self.new.bus ≡ shape_of self.old.bus }
        ensures arrivals { arrivals_at self.new.bus ≡ arrivals_at self.old.bus }
        ensures stamp { self.new.stamp ≡ self.old.stamp }
        ensures stamps { StampsRise L.sent L.got self.old.stamp self.new.stamp self.old.ends.items
            self.new.ends.items }
        ensures most { length self.new.events.items ≤ length self.old.events.items + 1 }
        ensures spare { vec_capacity self.old.events ≤ vec_capacity self.new.events }
        ensures quiet { length self.new.events.items ≡ length self.old.events.items →
            self.new.stopped ≡ false →
            Retries board.now self.old.bus self.new.bus self.old.ends.items self.new.ends.items
            (IsOfLane (shape_of self.old.bus) place offer.now.op) }
    {
        let presented = self.bus.serve_offer(board, place, offer, self.stamp);
        self.finish(presented);
    }

    /// One item is received from the end of the port at this place, if one is there, and arrives,
    /// with a stamp above its own; or it stops the segment. Whether one was received.
    pub fn receive(&mut self, board: &Board, place: usize) -> bool
        requires valid { IsValid board.now }
        requires place { place < length self.old.bus.ports }
        requires counts { IfSome (slice_get self.old.bus.ports place)
            (λ port. port.face.arrivals + 1 < 2 ^ 64) }
        requires ends { length self.old.ends.items ≡ length self.old.bus.ports }
        requires goes { self.old.stopped ≡ false }
        requires spare { vec_len self.old.events < vec_capacity self.old.events }
        ensures does { Does L.had L.sent L.got L.kept L.paired board.now
            (record { bus = self.old.bus; stamp = self.old.stamp; stopped = false })
            (record { bus = self.new.bus; stamp = self.new.stamp; stopped = self.new.stopped })
            self.old.ends.items self.new.ends.items self.old.events.items self.new.events.items }
        ensures shape { shape_of self.new.bus ≡ shape_of self.old.bus }
        ensures stamps { StampsRise L.sent L.got self.old.stamp self.new.stamp self.old.ends.items
            self.new.ends.items }
        ensures most { length self.new.events.items ≤ length self.old.events.items + 1 }
        ensures spare { vec_capacity self.old.events ≤ vec_capacity self.new.events }
        ensures recorded { result ≡ true → self.new.stopped ≡ false →
            length self.new.events.items ≡ length self.old.events.items + 1 }
        ensures arrives { result ≡ true → self.new.stopped ≡ false →
            OneMoreAt place (arrivals_at self.old.bus) (arrivals_at self.new.bus) }
        ensures nothing { result ≡ false →
            NothingCame L.had L.got place self.old.ends.items self.new.ends.items }
        ensures same_bus { result ≡ false → self.new.bus ≡ self.old.bus }
        ensures same_events { result ≡ false → self.new.events.items ≡ self.old.events.items }
    {
        match receive_at(self.ends.as_mut_slice(), place) {
            None => false,
            Some(item) => {
                self.take(board, place, item);
                true
            }
        }
    }

    /// An item came at the port of this place: it arrives, and what goes back at once is sent; or
    /// the segment stops, since the bus does not take it or there is no room for what goes back.
    fn take(&mut self, board: &Board, place: usize, item: Item)
        requires place { place < length self.old.bus.ports }
        requires counts { IfSome (slice_get self.old.bus.ports place)
            (λ port. port.face.arrivals + 1 < 2 ^ 64) }
        requires goes { self.old.stopped ≡ false }
        requires spare { vec_len self.old.events < vec_capacity self.old.events }
        ensures takes { Takes L.had L.sent L.got L.kept L.paired board.now place item
            (record { bus = self.old.bus; stamp = self.old.stamp; stopped = false })
            self.old.ends.items self.old.events.items
            (record { bus = self.new.bus; stamp = self.new.stamp; stopped = self.new.stopped })
            self.new.ends.items self.new.events.items }
        ensures shape { shape_of self.new.bus ≡ shape_of self.old.bus }
        ensures arrives { self.new.stopped ≡ false →
            OneMoreAt place (arrivals_at self.old.bus) (arrivals_at self.new.bus) }
        ensures spare { vec_capacity self.old.events ≤ vec_capacity self.new.events }
    {
        let sent = stamp_of(item);
        if sent >= 0x8000_0000 {
            self.stopped = true;
            return;
        }
        let later = self.stamp.max(sent + 1);
        let lane = self.bus.lane_of(place);
        match self.bus.arrive(board, place, item, later) {
            None => self.stopped = true,
            Some(arrival) => self.arrived(lane, place, later, arrival),
        }
    }

    /// The item arrived so.
    fn arrived(&mut self, lane: Lane, place: usize, later: u32, arrival: Arrival)
        requires goes { self.old.stopped ≡ false }
        requires spare { vec_len self.old.events < vec_capacity self.old.events }
        ensures bus { self.new.bus ≡ self.old.bus }
        ensures spare { vec_capacity self.old.events ≤ vec_capacity self.new.events }
        ensures keeps { Keeps L.had L.sent L.got L.kept L.paired lane place later arrival
            self.old.stamp self.old.ends.items self.old.events.items self.new.stamp
            self.new.ends.items self.new.events.items self.new.stopped }
    {
        let back = sent_at(place, arrival.back);
        if !has_room(self.ends.as_slice(), back) {
            self.stopped = true;
            return;
        }
        send_at(self.ends.as_mut_slice(), back);
        let event = Event::Arrive {
            lane,
            mark: arrival.mark,
        };
        keep(
            &mut self.events,
            Stamped {
                stamp: later,
                event,
            },
        );
        self.stamp = later;
    }

    /// What comes of an initiator: an event is recorded and what it sends is sent, if there is room
    /// for it; else the segment stops.
    fn finish(&mut self, presented: Served)
        requires apart { SendsApart presented }
        requires goes { self.old.stopped ≡ false }
        requires spare { vec_len self.old.events < vec_capacity self.old.events }
        ensures finishes { Finishes L.had L.sent L.got L.kept L.paired presented self.old.stamp
            self.old.ends.items self.new.ends.items self.old.events.items self.new.events.items
            self.new.stopped }
        ensures bus { self.new.bus ≡ self.old.bus }
        ensures stamp { self.new.stamp ≡ self.old.stamp }
        ensures spare { vec_capacity self.old.events ≤ vec_capacity self.new.events }
    {
        match presented {
            Served::Nothing | Served::Retried => {}
            Served::TurnsBack => self.stopped = true,
            Served::Did(acted) => self.record(acted),
        }
    }

    fn record(&mut self, acted: Acted)
        requires apart { SendsApart (Did acted) }
        requires goes { self.old.stopped ≡ false }
        requires spare { vec_len self.old.events < vec_capacity self.old.events }
        ensures records { Records L.had L.sent L.got L.kept L.paired acted self.old.stamp
            self.old.ends.items self.new.ends.items self.old.events.items self.new.events.items
            self.new.stopped }
        ensures bus { self.new.bus ≡ self.old.bus }
        ensures stamp { self.new.stamp ≡ self.old.stamp }
        ensures spare { vec_capacity self.old.events ≤ vec_capacity self.new.events }
    {
        let over = has_room(self.ends.as_slice(), acted.over);
        let back = has_room(self.ends.as_slice(), acted.back);
        if !over || !back {
            self.stopped = true;
            return;
        }
        send_both(self.ends.as_mut_slice(), acted.over, acted.back);
        let stamped = Stamped {
            stamp: self.stamp,
            event: acted.event,
        };
        keep(&mut self.events, stamped);
    }
}

/// One more event, for which there is room.
fn keep(events: &mut Vec<Stamped>, event: Stamped)
    requires { vec_len events.old < vec_capacity events.old }
    ensures items { events.new.items ≡ events.old.items ++ event ∷ [] }
    ensures len { vec_len events.new ≡ vec_len events.old + 1 }
    ensures capacity { vec_capacity events.old ≤ vec_capacity events.new }
{
    let _kept = events.push(event);
}

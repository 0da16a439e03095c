ghost use Rattle.std.specs.Prelude.{◌≡◌, ◌+◌, ◌<◌, ◌≤◌, ◌^◌, ◌&&◌, length};
ghost use Rattle.std.specs.Prelude.{not, true, false, None, Some, nat_lt};
ghost use Rattle.bus_face.specs.State.{FaceState};
ghost use Rattle.bus_face.specs.Offers.{answered_with};
ghost use Rattle.board_model.specs.Limits.{most_posted, most_delayed};

use crate::{Offer, Reply};
use arrayvec::ArrayVec;
use board_model::{MOST_OFFERS, is_posted};
use history_model::{Cause, Mark};
use lane_items::{AskTable, DoneTable, Item, PostedTable, SlotTable};
use machine_steps::{completion_kind, request_kind};
use order_table::may_pass;
use pci_command::{Kind, OpId, Outcome, Request, same_op};
use std::marker::Model;

/// Half a bridge, on one of its buses.
#[derive(Debug, Drop)]
pub struct Face {
    posts: PostedTable,
    asks: AskTable,
    dones: DoneTable,
    slots: SlotTable,
    posted: u8,
    owed: u8,
    arrivals: u64,
}

impl Model for Face {
    ghost use Rattle.bus_face.specs.State.{FaceState};
    ghost use Rattle.bus_face.specs.Held.{IsFace};

    ghost Value = { FaceState };

    ghost view = { λ f. record {
      posts = f.posts;
      asks = f.asks;
      dones = f.dones;
      slots = f.slots;
      posted = f.posted;
      owed = f.owed;
      arrivals = f.arrivals;
    } };

    ghost invariant = { λ f. IsFace f.slots f.dones };
}

impl Face {
    ghost use Rattle.std.specs.Prelude.{[], take, slice_get};
    ghost use Rattle.list_facts.specs.Lists.{less};
    ghost use Rattle.std.specs.Option.{option_map};
    ghost use Rattle.std.specs.List.{find};
    ghost use Rattle.lane_items.specs.requests.Slots.{IsHeld, slot_at};
    ghost use Rattle.lane_items.specs.completions.Completions.{done_at, IsStanding};
    ghost use Rattle.std.specs.List.{list_any};
    ghost use Rattle.bus_face.specs.Arrivals.{carried, is_taken, is_for, has_slot};
    ghost use Rattle.bus_face.specs.Arrivals.{counted, arrived, ask_marked, done_marked};
    ghost use Rattle.bus_face.specs.Arrivals.{sent_back, word_of, HasRequest};
    ghost use Rattle.bus_face.specs.Replies.{posts_reply, is_behind, is_own_entry};
    ghost use Rattle.bus_face.specs.Replies.{taken_reply, LowestReply, LowestLatched};
    ghost use Rattle.bus_face.specs.Offers.{offers_of, ask_offers, is_offered, came_before};
    ghost use Rattle.bus_face.specs.Offers.{is_ask_for, LessAt, left_by, answered_with};
    ghost use Rattle.bus_face.specs.OnLanes.{StandsForEmpty, RepliesOfLanes, IsLawfulOnLanes};
    ghost use Rattle.bus_face.specs.OnLanes.{ArrivesOnLanes, OffersOfLanes, EndsOnLanes};
    ghost use Rattle.std.specs.List.{Contains};
    ghost use Rattle.pci_command.specs.Command.{is_read};
    ghost use Rattle.board_model.specs.Requests.{is_posted};

    /// Half of a bridge that nothing crossed yet.
    pub fn new(posted: u8, delayed: u8) -> Face
        requires posted { (1 ≤ posted) × (posted ≤ most_posted) }
        requires delayed { (1 ≤ delayed) × (delayed ≤ most_delayed) }
        ensures empty { StandsForEmpty result }
        ensures kept { result ≡ record {
          posts = record { depth = posted; posts = [] };
          asks = record { depth = delayed; asks = [] };
          dones = record { depth = delayed; dones = [] };
          slots = record { depth = delayed; slots = [] };
          posted = posted;
          owed = 0;
          arrivals = 0;
        } }
    {
        Face {
            posts: PostedTable::new(posted),
            asks: AskTable::new(delayed),
            dones: DoneTable::new(delayed),
            slots: SlotTable::new(delayed),
            posted,
            owed: 0,
            arrivals: 0,
        }
    }

    /// What the face answers to an operation that it claims, presented by the initiator of this tag
    /// (PCI Local Bus 2.2, sections 3.2.5 and 3.3.3.3, from memory). A posted write is accepted
    /// while fewer are owed than the bridge holds, and else Full. A delayed request is given the
    /// completion of its own slot: Waiting where that has not come, and Behind where it reads and
    /// an older posted write stands. Without an own slot it is latched in the lowest free one, and
    /// without a free one the cause is NoSlot. A Retry changes nothing.
    pub fn respond(&mut self, tag: u8, op: OpId, request: &Request) -> Reply
        ensures kept { LowestReply self.old tag op request.now result self.new }
        ensures lanes { RepliesOfLanes self.old tag op request.now result self.new }
    {
        self.reply(tag, op, request)
    }

    /// The same, by the tables.
    fn reply(&mut self, tag: u8, op: OpId, request: &Request) -> Reply
        ensures { LowestReply self.old tag op request.now result self.new }
    {
        if is_posted(request) {
            self.post()
        } else {
            self.delay(tag, op, request)
        }
    }

    /// A delayed request is presented.
    fn delay(&mut self, tag: u8, op: OpId, request: &Request) -> Reply
        requires { is_posted request.now ≡ false }
        ensures { LowestReply self.old tag op request.now result self.new }
    {
        match self.slots.find(tag, request) {
            Some(slot) => self.take(slot, request.command.is_read()),
            None => self.latch(tag, op, request),
        }
    }

    /// A new slot, while there is one.
    fn latch(&mut self, tag: u8, op: OpId, request: &Request) -> Reply
        ensures { LowestLatched self.old tag op request.now result self.new }
    {
        if self.slots.room() > 0 {
            Reply::Latched(self.slots.hold(tag, op, request.copy()))
        } else {
            Reply::Retry(Cause::NoSlot)
        }
    }

    /// The completion of the own slot, if it came: Behind where it may not pass posted writes, and
    /// one stands that is older. Posted writes alone are in the way.
    fn take(&mut self, slot: u8, read: bool) -> Reply
        requires { IsHeld slot self.old.slots.slots }
        ensures { let reply = taken_reply self.old slot read (done_at slot self.old.dones.dones) in
            (result ≡ reply.0) × (self.new ≡ reply.1) }
    {
        match self.dones.find(slot) {
            None => Reply::Retry(Cause::Waiting),
            Some((outcome, arrival)) => {
                if !may_pass(completion_kind(read), Kind::Pmw) && self.is_behind(arrival) {
                    Reply::Retry(Cause::Behind)
                } else {
                    self.slots.free(slot);
                    self.dones.leave(slot);
                    Reply::Taken(slot, outcome)
                }
            }
        }
    }

    /// A posted write is presented.
    fn post(&mut self) -> Reply
        ensures { let reply = posts_reply self.old in (result ≡ reply.0) × (self.new ≡ reply.1) }
    {
        if self.owed < self.posted {
            self.owed += 1;
            Reply::Accepted
        } else {
            Reply::Retry(Cause::Full)
        }
    }

    /// How many items arrived so far.
    pub fn arrivals(&self) -> u64
        ensures { result ≡ self.now.arrivals }
    {
        self.arrivals
    }

    /// How many posted writes were accepted here whose credit has not come back.
    pub fn owed(&self) -> u8
        ensures { result ≡ self.now.owed }
    {
        self.owed
    }

    /// Whether the face takes the item now: its tables have room for it, and what it answers is
    /// asked here.
    pub fn lawful(&self, item: &Item) -> bool
        ensures kept { result ≡ is_taken self.now (carried item.now) }
        ensures lanes { IsLawfulOnLanes self.now (carried item.now) result }
    {
        let _room = self.slots.room();
        self.takes(item)
    }

    /// The same, by the tables.
    fn takes(&self, item: &Item) -> bool
        ensures { result ≡ is_taken self.now (carried item.now) }
    {
        match *item {
            Item::Post { .. } => self.posts.room() > 0,
            Item::Ask { slot, .. } => self.takes_ask(slot),
            Item::Done { op, slot, .. } => self.is_held_for(slot, op)
                && self.dones.find(slot).is_none(),
            Item::Room { .. } => self.owed > 0,
            Item::Gone { slot, .. } => self.slots.operation(slot).is_some()
                && self.dones.find(slot).is_none(),
        }
    }

    fn takes_ask(&self, slot: u8) -> bool
        ensures { result ≡ (nat_lt slot self.now.asks.depth &&
            nat_lt (length self.now.asks.asks) self.now.asks.depth &&
            not (list_any (has_slot slot) self.now.asks.asks)) }
    {
        self.asks.room() > 0
            && slot < self.asks.len() + self.asks.room()
            && !self.asks.has_slot(slot)
    }

    fn is_held_for(&self, slot: u8, op: OpId) -> bool
        ensures { result ≡ is_for op (slot_at slot self.now.slots.slots) }
    {
        match self.slots.operation(slot) {
            Some(held) => held == op,
            None => false,
        }
    }

    /// An item arrives that the face takes; a delayed request comes with its request as driven on
    /// this bus. By its mark a completion is discarded and its slot freed, or a request is dropped.
    /// What goes back at once is the word of that, with the stamp.
    pub fn arrive(
        &mut self,
        item: Item,
        request: Option<Request>,
        mark: Mark,
        stamp: u32,
    ) -> Option<Item>
        requires taken { is_taken self.old (carried item) ≡ true }
        requires request { HasRequest (carried item) request }
        requires counts { self.old.arrivals + 1 < 2 ^ 64 }
        ensures kept { self.new ≡ counted (arrived self.old (carried item) request mark) }
        ensures back { result ≡ sent_back (carried item) mark stamp }
        ensures lanes { ArrivesOnLanes self.old (carried item) request mark self.new result }
    {
        self.bring(item, request, mark, stamp)
    }

    /// The same, by the tables.
    fn bring(
        &mut self,
        item: Item,
        request: Option<Request>,
        mark: Mark,
        stamp: u32,
    ) -> Option<Item>
        requires taken { is_taken self.old (carried item) ≡ true }
        requires request { HasRequest (carried item) request }
        requires counts { self.old.arrivals + 1 < 2 ^ 64 }
        ensures kept { self.new ≡ counted (arrived self.old (carried item) request mark) }
        ensures back { result ≡ sent_back (carried item) mark stamp }
    {
        let back = self.take_in(item, request, mark, stamp);
        self.arrivals += 1;
        back
    }

    fn take_in(
        &mut self,
        item: Item,
        request: Option<Request>,
        mark: Mark,
        stamp: u32,
    ) -> Option<Item>
        requires taken { is_taken self.old (carried item) ≡ true }
        requires request { HasRequest (carried item) request }
        ensures kept { self.new ≡ arrived self.old (carried item) request mark }
        ensures back { result ≡ sent_back (carried item) mark stamp }
    {
        match item {
            Item::Post { op, .. } => {
                self.posts.push(op, self.arrivals);
                None
            }
            Item::Ask { op, slot, .. } => self.ask_comes(op, slot, request, mark, stamp),
            Item::Done {
                op,
                slot,
                outcome,
                ..
            } => {
                self.done_comes(op, slot, outcome, mark);
                None
            }
            Item::Room { .. } => {
                self.owed -= 1;
                None
            }
            Item::Gone { slot, .. } => {
                self.slots.free(slot);
                None
            }
        }
    }

    fn ask_comes(
        &mut self,
        op: OpId,
        slot: u8,
        request: Option<Request>,
        mark: Mark,
        stamp: u32,
    ) -> Option<Item>
        requires room { length self.old.asks.asks < self.old.asks.depth }
        ensures kept { self.new ≡ ask_marked self.old op slot request mark }
        ensures back { result ≡ word_of slot stamp mark }
    {
        match (mark, request) {
            (Mark::Drop, _) => Some(Item::Gone { slot, stamp }),
            (_, Some(request)) => {
                self.asks.arrive(op, slot, request, self.arrivals);
                None
            }
            (_, None) => None,
        }
    }

    fn done_comes(&mut self, op: OpId, slot: u8, outcome: Outcome, mark: Mark)
        requires held { IsHeld slot self.old.slots.slots }
        requires none { ¬ IsStanding slot self.old.dones.dones }
        ensures { self.new ≡ done_marked self.old op slot outcome mark }
    {
        let _slots = self.slots.room();
        let _dones = self.dones.room();
        match mark {
            Mark::Discard => self.slots.free(slot),
            Mark::Plain | Mark::Drop => self.dones.arrive(slot, op, outcome, self.arrivals),
        }
    }

    /// The items that may be driven on this bus now, in the order in which they came: the delayed
    /// requests that came before every posted write and have no older equal one, and the posted
    /// write that came first (PCI Local Bus 2.2, appendix E, from memory).
    pub fn offers(&self) -> ArrayVec<Offer, MOST_OFFERS>
        ensures kept { result.items ≡ offers_of self.now }
        ensures lanes { OffersOfLanes self.now result.items }
    {
        self.all_offers()
    }

    /// The same, by the tables.
    fn all_offers(&self) -> ArrayVec<Offer, MOST_OFFERS>
        ensures { result.items ≡ offers_of self.now }
    {
        let mut offers = self.ask_offers();
        if let Some((op, _)) = self.posts.head() {
            offers.push(Offer {
                op,
                ask: false,
                slot: 0,
            });
        }
        offers
    }

    /// The delayed requests among them.
    fn ask_offers(&self) -> ArrayVec<Offer, MOST_OFFERS>
        ensures all { result.items ≡ ask_offers self.now.posts.posts [] self.now.asks.asks }
        ensures few { length result.items ≤ most_delayed }
    {
        let mut offers = ArrayVec::new();
        for place in 0..self.asks.len() {
            if self.is_offered(place) {
                let (op, slot, _) = self.asks.get(place);
                offers.push(Offer {
                    op,
                    ask: true,
                    slot,
                });
            }
        }
        offers
    }

    /// Whether the delayed request at this place may be driven now: it may pass posted writes, or
    /// none stands that is older, and it has no older equal one. Posted writes alone are in the
    /// way.
    fn is_offered(&self, place: u8) -> bool
        requires { place < length self.now.asks.asks }
        ensures { Some result ≡ option_map (λ ask. is_offered self.now.posts.posts
            (take place self.now.asks.asks) ask) (slice_get self.now.asks.asks place) }
    {
        let (_, _, arrival) = self.asks.get(place);
        let first = self.goes_first(place, arrival);
        let equal = self.asks.older_equal(place);
        first && !equal
    }

    /// Whether the delayed request at this place, which came with this arrival, goes before the
    /// posted writes: it may pass them, or none stands that came before.
    fn goes_first(&self, place: u8, arrival: u64) -> bool
        requires { place < length self.now.asks.asks }
        ensures { result ≡ came_before arrival self.now.posts.posts }
    {
        may_pass(request_kind(self.asks.is_read(place)), Kind::Pmw) || self.came_before(arrival)
    }

    /// Whether no posted write stands that came before.
    fn came_before(&self, arrival: u64) -> bool
        ensures { result ≡ came_before arrival self.now.posts.posts }
    {
        match self.posts.head() {
            Some((_, first)) => arrival < first,
            None => true,
        }
    }

    /// An item that is offered ended on this bus: it leaves, and the answer is what goes back for
    /// it, with the stamp: a credit for a posted write, the completion of a delayed request.
    pub fn ended(&mut self, offer: &Offer, outcome: Outcome, stamp: u32) -> Item
        requires { Contains (offers_of self.old) offer.now }
        ensures kept { self.new ≡ left_by self.old offer.now }
        ensures back { result ≡ answered_with offer.now outcome stamp }
        ensures lanes { EndsOnLanes self.old offer.now outcome self.new result }
    {
        self.leave(offer);
        answer(offer, outcome, stamp)
    }

    /// The item leaves.
    fn leave(&mut self, offer: &Offer)
        requires { Contains (offers_of self.old) offer.now }
        ensures { self.new ≡ left_by self.old offer.now }
    {
        if offer.ask {
            self.leave_ask(offer.op);
        } else {
            self.posts.pop();
        }
    }

    /// The oldest delayed request of the operation leaves.
    fn leave_ask(&mut self, op: OpId)
        ensures { self.new ≡ record self.old {
          asks = record (self.old.asks) { asks = less (is_ask_for op) self.old.asks.asks };
        } }
    {
        if let Some(place) = self.place_of(op) {
            self.asks.leave(place);
        }
    }

    /// Where the oldest delayed request of the operation stands.
    fn place_of(&self, op: OpId) -> Option<u8>
        ensures { LessAt (is_ask_for op) self.now.asks.asks result }
    {
        for place in 0..self.asks.len() {
            let (other, _, _) = self.asks.get(place);
            if same_op(op, other) {
                return Some(place);
            }
        }
        None
    }

    /// Whether a posted write stands that came before.
    fn is_behind(&self, arrival: u64) -> bool
        ensures { result ≡ is_behind arrival self.now.posts.posts }
    {
        match self.posts.head() {
            Some((_, first)) => first < arrival,
            None => false,
        }
    }
}

/// What goes back for an item that ended.
fn answer(offer: &Offer, outcome: Outcome, stamp: u32) -> Item
    ensures { result ≡ answered_with offer.now outcome stamp }
{
    if offer.ask {
        Item::Done {
            op: offer.op,
            slot: offer.slot,
            outcome,
            stamp,
        }
    } else {
        Item::Room { stamp }
    }
}

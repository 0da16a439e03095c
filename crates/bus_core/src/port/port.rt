ghost use Rattle.std.specs.Prelude.{◌≡◌, ◌+◌, ◌<◌, ◌≤◌, ◌^◌, ℕ, true, Some, IfOk};
ghost use Rattle.pci_command.specs.declared.op_id.OpId.{OpId as OpName};
ghost use Rattle.board_model.specs.declared.board.Board.{Board as BoardTree};
ghost use Rattle.board_model.specs.Ways.{end_of};
ghost use Rattle.history_model.specs.declared.event.By.{By};
ghost use Rattle.history_model.specs.World.{World};
ghost use Rattle.history_model.specs.Answers.{bridge_to};
ghost use Rattle.bus_face.specs.Arrivals.{carried};
ghost use Rattle.bus_core.specs.port.Port.{PortView};
ghost use Rattle.bus_core.specs.port.Calls.{OtherBridgesLeave};
ghost use Rattle.board_model.specs.Limits.{most_posted, most_delayed};

use arrayvec::ArrayVec;
use board_model::{Board, Bridge, Lane, MOST_OFFERS};
use bus_agents::LaneMarks;
use bus_face::{Face, Offer, Reply};
use history_model::{Carried, Mark};
use lane_items::Item;
use pci_command::{NoMemory, OpId, Outcome, Request};
use std::alloc::Global;
use std::marker::Model;

/// A bridge on one of its buses, before the end of its lanes.
#[derive(Debug, Drop)]
pub struct Port {
    lane: Lane,
    face: Face,
    marks: LaneMarks,
}

impl Model for Port {
    ghost use Rattle.std.specs.Prelude.{◌≤◌};
    ghost use Rattle.bus_core.specs.port.Port.{PortView};

    ghost Value = { PortView };

    ghost view = { λ p. record { lane = p.lane; face = p.face; marks = p.marks } };

    ghost invariant = { λ p. (p.marks.asks ≤ p.face.arrivals) × (p.marks.dones ≤ p.face.arrivals) };
}

/// How the board marks an item that arrived, and what goes back for it at once.
#[derive(Clone, Copy, Debug, PartialEq, Eq)]
pub struct Arrival {
    pub mark: Mark,
    pub back: Option<Item>,
}

impl Port {
    ghost use Rattle.std.specs.List.{Contains};
    ghost use Rattle.bus_face.specs.Arrivals.{is_taken, HasRequest, sent_back};
    ghost use Rattle.bus_face.specs.Offers.{offers_of, answered_with};
    ghost use Rattle.bus_core.specs.port.Calls.{PortStandsAtFirst, PortTests, PortArrives, PortReplies, PortStaysAtRetry, PortOffers, PortEnds};

    /// The bridge where this lane of it ends, before the first event.
    pub fn new(alloc: Global, board: &Board, bridge: &Bridge, lane: Lane) -> Result<Port, NoMemory>
        requires posted { (1 ≤ bridge.now.posted) × (bridge.now.posted ≤ most_posted) }
        requires delayed { (1 ≤ bridge.now.delayed) × (bridge.now.delayed ≤ most_delayed) }
        ensures lane { IfOk result (λ port. port.lane ≡ lane) }
        ensures none { IfOk result (λ port. port.face.arrivals ≡ 0) }
        ensures first { IfOk result (λ port. bridge_to board.now lane.bus ≡ Some bridge.now →
            PortStandsAtFirst board.now (end_of board.now lane) port) }
    {
        let marks = LaneMarks::new(alloc, board, lane)?;
        Ok(Port {
            lane,
            face: Face::new(bridge.posted, bridge.delayed),
            marks,
        })
    }

    /// The lane of the bridge that ends here.
    pub fn lane(&self) -> Lane
        ensures { result ≡ self.now.lane }
    {
        self.lane
    }

    /// Whether the item may come now: there is room for it, and what it answers is asked here.
    pub fn lawful(&self, item: &Item) -> bool
        ensures taken { result ≡ is_taken self.now.face (carried item.now) }
        ensures lawful { PortTests self.now (carried item.now) result }
    {
        self.face.lawful(item)
    }

    /// An item arrives that may come; a delayed request comes with its request as driven on this
    /// bus. By its mark a completion is discarded or a request dropped; the word of that, with the
    /// stamp, goes back at once. It takes no memory.
    pub fn arrive(&mut self, item: Item, request: Option<Request>, stamp: u32) -> Arrival
        requires taken { is_taken self.old.face (carried item) ≡ true }
        requires request { HasRequest (carried item) request }
        requires counts { self.old.face.arrivals + 1 < 2 ^ 64 }
        ensures lane { self.new.lane ≡ self.old.lane }
        ensures arrivals { self.new.face.arrivals ≡ self.old.face.arrivals + 1 }
        ensures back { result.back ≡ sent_back (carried item) result.mark stamp }
        ensures arrives { (board : BoardTree) →
            PortArrives board self.old (carried item) request result.mark self.new result.back }
    {
        let mark = self.marks.mark(carried(item));
        let back = self.face.arrive(item, request, mark, stamp);
        Arrival { mark, back }
    }

    /// What the bridge answers to an operation that its lane back claims, presented by the
    /// initiator of this tag. A Retry changes nothing.
    pub fn respond(&mut self, tag: u8, op: OpId, request: &Request) -> Reply
        ensures lane { self.new.lane ≡ self.old.lane }
        ensures arrivals { self.new.face.arrivals ≡ self.old.face.arrivals }
        ensures replies { PortReplies self.old tag op request.now result self.new }
        ensures retried { PortStaysAtRetry self.old result self.new }
    {
        self.face.respond(tag, op, request)
    }

    /// The items that the lane presents on this bus now, in the order in which they came.
    pub fn offers(&self) -> ArrayVec<Offer, MOST_OFFERS>
        ensures kept { result.items ≡ offers_of self.now.face }
        ensures offers { PortOffers self.now result.items }
    {
        self.face.offers()
    }

    /// An offered item ended on this bus: it leaves, and what goes back is told, with the stamp.
    pub fn ended(&mut self, offer: &Offer, outcome: Outcome, stamp: u32) -> Item
        requires { Contains (offers_of self.old.face) offer.now }
        ensures lane { self.new.lane ≡ self.old.lane }
        ensures arrivals { self.new.face.arrivals ≡ self.old.face.arrivals }
        ensures back { result ≡ answered_with offer.now outcome stamp }
        ensures ends { PortEnds self.old offer.now outcome self.new result }
    {
        self.face.ended(offer, outcome, stamp)
    }
}

/// An item without its stamp.
fn carried(item: Item) -> Carried
    ensures { result ≡ carried item }
{
    match item {
        Item::Post { op, .. } => Carried::Post { op },
        Item::Ask { op, slot, .. } => Carried::Ask { op, slot },
        Item::Done {
            op,
            slot,
            outcome,
            ..
        } => Carried::Done { op, slot, outcome },
        Item::Room { .. } => Carried::Room,
        Item::Gone { slot, .. } => Carried::Gone { slot },
    }
}

/// What moves another bridge leaves a port as it was.
pub fn other_bridges_leave_ports()
    ensures { (board : BoardTree) (bus : ℕ) (tags : By → OpName → ℕ) (port : PortView)
        (world : World) → OtherBridgesLeave board bus tags port world }
{}

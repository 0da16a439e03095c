ghost use Rattle.std.specs.Prelude.{◌≡◌, ◌+◌, ◌<◌, ◌≤◌, true, false, length, vec_len, IsTrue};
ghost use Rattle.std.specs.Vec.{vec_capacity};
ghost use Rattle.std.specs.List.{find};
ghost use Rattle.std.specs.Option.{option_copied};
ghost use Rattle.board_model.specs.WellFormed.{is_well_formed};
ghost use Rattle.std.specs.Prelude.{slice_get, IfSome};
ghost use Rattle.std.specs.List.{Contains};
ghost use Rattle.bus_face.specs.Offers.{is_offer_of, offers_of};
ghost use Rattle.bus_core.specs.Bus.{shape_of};
ghost use Rattle.bus_segment.specs.Steps.{IsOfLane, Retries};
ghost use Rattle.bus_segment.specs.turns.Works.{seen, Works, HasLine, IsServed};
ghost use Rattle.bus_segment.specs.turns.Works.{IsOfPort, AllRetried, most_at};
ghost use Rattle.board_model.specs.Limits.{most_agents, most_ports, most_offers, most_served};

use crate::Segment;
use crate::turns::lines::lines;
use board_model::MOST_PORTS;
use board_tree::Tree;
use bus_agents::Arbiter;
use bus_face::Offer;
use lane_items::LaneEnd;
use pci_command::OpId;

/// The first request line of a master; those below are of bridges.
const MASTERS: u8 = MOST_PORTS as u8;

/// Each initiator that presents something is served once, in the order of the grants, as long as
/// the segment does not stop.
pub(crate) fn serve_all<L: LaneEnd + Drop>(
    segment: &mut Segment<L>,
    arbiter: &mut Arbiter,
    board: &Tree,
)
    requires formed { IsTrue (is_well_formed board.now) }
    requires going { segment.old.stopped ≡ false }
    requires ends { length segment.old.ends.items ≡ length segment.old.bus.ports }
    requires ports { length segment.old.bus.ports ≤ most_ports }
    requires masters { length segment.old.bus.masters ≤ most_agents }
    requires spare { vec_len segment.old.events + most_served ≤ vec_capacity segment.old.events }
    ensures works { Works L.had L.sent L.got L.kept L.paired board.now most_served
        (seen segment.old.bus segment.old.stamp segment.old.stopped)
        (seen segment.new.bus segment.new.stamp segment.new.stopped)
        segment.old.ends.items segment.new.ends.items segment.old.events.items
        segment.new.events.items }
    ensures quiet { length segment.new.events.items ≡ length segment.old.events.items →
        segment.new.stopped ≡ false →
        AllRetried board.now 0 segment.old.bus segment.new.bus segment.old.ends.items
        segment.new.ends.items }
{
    let mut lines = lines(segment.bus());
    'grants: while !segment.stopped() {
        let Some(line) = arbiter.grant(lines) else {
            return;
        };
        lines &= !(1 << line);
        serve(segment, board, line);
    }
}

/// The initiator with this line is served.
fn serve<L: LaneEnd + Drop>(segment: &mut Segment<L>, board: &Tree, line: u8)
    requires formed { IsTrue (is_well_formed board.now) }
    requires going { segment.old.stopped ≡ false }
    requires ends { length segment.old.ends.items ≡ length segment.old.bus.ports }
    requires ports { length segment.old.bus.ports ≤ most_ports }
    requires masters { length segment.old.bus.masters ≤ most_agents }
    requires line { IsServed (shape_of segment.old.bus) line }
    requires spare { vec_len segment.old.events + most_at line ≤ vec_capacity segment.old.events }
    ensures works { Works L.had L.sent L.got L.kept L.paired board.now (most_at line)
        (seen segment.old.bus segment.old.stamp segment.old.stopped)
        (seen segment.new.bus segment.new.stamp segment.new.stopped)
        segment.old.ends.items segment.new.ends.items segment.old.events.items
        segment.new.events.items }
    ensures spare { vec_capacity segment.old.events ≤ vec_capacity segment.new.events }
    ensures quiet { length segment.new.events.items ≡ length segment.old.events.items →
        segment.new.stopped ≡ false →
        Retries board.now segment.old.bus segment.new.bus segment.old.ends.items
        segment.new.ends.items (HasLine (shape_of segment.old.bus) line) }
{
    if line < MASTERS {
        serve_lane(segment, board, line);
    } else {
        segment.serve_master(board, line - MASTERS);
    }
}

/// The lane of the port at this place presents all that it offers now, until the segment stops.
fn serve_lane<L: LaneEnd + Drop>(segment: &mut Segment<L>, board: &Tree, place: u8)
    requires formed { IsTrue (is_well_formed board.now) }
    requires going { segment.old.stopped ≡ false }
    requires ends { length segment.old.ends.items ≡ length segment.old.bus.ports }
    requires place { place < length segment.old.bus.ports }
    requires spare { vec_len segment.old.events + most_offers ≤ vec_capacity segment.old.events }
    ensures works { Works L.had L.sent L.got L.kept L.paired board.now most_offers
        (seen segment.old.bus segment.old.stamp segment.old.stopped)
        (seen segment.new.bus segment.new.stamp segment.new.stopped)
        segment.old.ends.items segment.new.ends.items segment.old.events.items
        segment.new.events.items }
    ensures spare { vec_capacity segment.old.events ≤ vec_capacity segment.new.events }
    ensures quiet { length segment.new.events.items ≡ length segment.old.events.items →
        segment.new.stopped ≡ false →
        Retries board.now segment.old.bus segment.new.bus segment.old.ends.items
        segment.new.ends.items (IsOfPort (shape_of segment.old.bus) place) }
{
    let before = segment.recorded();
    let offers = segment.bus().offers(place as usize);
    for offer in offers.as_slice() {
        if segment.stopped() {
            return;
        }
        serve_given(segment, board, place, offer, before);
    }
}

/// The lane of the port at this place presents what it offered after so many events, if it offers it
/// still: so it does where there was none since.
fn serve_given<L: LaneEnd + Drop>(
    segment: &mut Segment<L>,
    board: &Tree,
    place: u8,
    offer: &Offer,
    before: usize,
)
    requires formed { IsTrue (is_well_formed board.now) }
    requires going { segment.old.stopped ≡ false }
    requires ends { length segment.old.ends.items ≡ length segment.old.bus.ports }
    requires place { place < length segment.old.bus.ports }
    requires offered { length segment.old.events.items ≡ before →
        IfSome (slice_get segment.old.bus.ports place)
        (λ port. Contains (offers_of port.face) offer.now) }
    requires spare { vec_len segment.old.events + 1 ≤ vec_capacity segment.old.events }
    ensures works { Works L.had L.sent L.got L.kept L.paired board.now 1
        (seen segment.old.bus segment.old.stamp segment.old.stopped)
        (seen segment.new.bus segment.new.stamp segment.new.stopped)
        segment.old.ends.items segment.new.ends.items segment.old.events.items
        segment.new.events.items }
    ensures spare { vec_capacity segment.old.events ≤ vec_capacity segment.new.events }
    ensures quiet { length segment.new.events.items ≡ length segment.old.events.items →
        segment.new.stopped ≡ false →
        Retries board.now segment.old.bus segment.new.bus segment.old.ends.items
        segment.new.ends.items (IsOfLane (shape_of segment.old.bus) place offer.now.op) }
{
    let count = segment.recorded();
    if count == before {
        segment.serve_offer(board, place, offer);
    } else {
        serve_op(segment, board, place, offer.op);
    }
}

/// The lane of the port at this place presents the operation, if it offers it still.
fn serve_op<L: LaneEnd + Drop>(segment: &mut Segment<L>, board: &Tree, place: u8, op: OpId)
    requires formed { IsTrue (is_well_formed board.now) }
    requires going { segment.old.stopped ≡ false }
    requires ends { length segment.old.ends.items ≡ length segment.old.bus.ports }
    requires place { place < length segment.old.bus.ports }
    requires spare { vec_len segment.old.events + 1 ≤ vec_capacity segment.old.events }
    ensures works { Works L.had L.sent L.got L.kept L.paired board.now 1
        (seen segment.old.bus segment.old.stamp segment.old.stopped)
        (seen segment.new.bus segment.new.stamp segment.new.stopped)
        segment.old.ends.items segment.new.ends.items segment.old.events.items
        segment.new.events.items }
    ensures spare { vec_capacity segment.old.events ≤ vec_capacity segment.new.events }
    ensures quiet { length segment.new.events.items ≡ length segment.old.events.items →
        segment.new.stopped ≡ false →
        Retries board.now segment.old.bus segment.new.bus segment.old.ends.items
        segment.new.ends.items (IsOfLane (shape_of segment.old.bus) place op) }
{
    let offers = segment.bus().offers(place as usize);
    match offer_of(offers.as_slice(), op) {
        Some(offer) => segment.serve_offer(board, place, &offer),
        None => {}
    }
}

/// The first offer of the operation.
fn offer_of(offers: &[Offer], op: OpId) -> Option<Offer>
    ensures { result ≡ find (is_offer_of op) offers.now }
{
    find_offer(offers, op).copied()
}

fn find_offer(offers: &[Offer], op: OpId) -> Option<&Offer>
    ensures { option_copied result ≡ find (is_offer_of op) offers.now }
{
    offers.iter().find(|offer| is_of(offer, op))
}

fn is_of(offer: &Offer, op: OpId) -> bool
    ensures { result ≡ is_offer_of op offer.now }
{
    op == offer.op
}

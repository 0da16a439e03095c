ghost use Rattle.std.specs.Prelude.{◌≡◌, [], IfOk};
ghost use Rattle.lane_items.specs.Lane.{IsEmptied};

use crate::ring::inward::Inward;
use crate::ring::lane::{cross, look};
use crate::ring::outward::Outward;
use lane_items::{Item, LaneEnd};
use pci_command::NoMemory;
use rtrb::RingBuffer;
use std::alloc::Global;

/// One end of a bridge's two lanes, each of which is a ring of 32 items. It may move to the thread
/// that works its bus: what it sends there may be received by another thread in the same phase.
#[derive(Drop)]
pub struct RingEnd {
    outward: Outward,
    inward: Inward,
}

impl LaneEnd for RingEnd {
    ghost use Rattle.std.specs.Prelude.{length};
    ghost use Rattle.lane_ends.specs.ring.Ends.{sent_out, got_in, AreOneLane};
    ghost use Rattle.std.proofs.Common.{rules};
    ghost use Rattle.std.proofs.lemmas.Grind.{common_steps};

    ghost had = { λ end. end.inward.hand.items };

    ghost sent = { λ end. sent_out end.outward };

    ghost got = { λ end. got_in end.inward };

    ghost kept = { λ end. length end.outward.waiting.items };

    ghost paired = { λ a b. AreOneLane a.outward b.inward × AreOneLane b.outward a.inward };

    ghost kept_were_sent = { Prim.search (rules, common_steps) };

    ghost paired_both_ways = { λ a b both. (both.1, both.0) };

    fn room(&self) -> u32 {
        32 - self.outward.waiting.len() as u32
    }

    fn send(&mut self, item: Item) {
        self.outward.send(item);
    }

    /// The oldest item in hand, or one from the ring. What waits to be sent is pushed first.
    fn receive(&mut self) -> Option<Item> {
        self.outward.push_waiting();
        self.inward.receive()
    }

    /// Of both lanes what is in the rings is seen before anything crosses, since only both together
    /// say that there is room.
    fn settle(a: &mut RingEnd, b: &mut RingEnd) {
        look(&mut a.outward, &mut b.inward);
        look(&mut b.outward, &mut a.inward);
        cross(&mut a.outward, &mut b.inward);
        cross(&mut b.outward, &mut a.inward);
    }
}

/// The two ends of one bridge, over two rings of 32 items each, with nothing in hand and nothing
/// sent. It fails only where there is no memory for the rings.
pub fn ring_pair(alloc: Global) -> Result<(RingEnd, RingEnd), NoMemory>
    ensures paired { IfOk result (λ ends. ⟦<RingEnd as LaneEnd>⟧.paired ends.0 ends.1) }
    ensures empty { IfOk result (λ ends. (⟦<RingEnd as LaneEnd>⟧.had ends.0 ≡ []) ×
        (⟦<RingEnd as LaneEnd>⟧.had ends.1 ≡ [])) }
    ensures first { IfOk result (λ ends. IsEmptied (⟦<RingEnd as LaneEnd>⟧.sent ends.0)
        (⟦<RingEnd as LaneEnd>⟧.got ends.0) (⟦<RingEnd as LaneEnd>⟧.kept ends.0)) }
    ensures second { IfOk result (λ ends. IsEmptied (⟦<RingEnd as LaneEnd>⟧.sent ends.1)
        (⟦<RingEnd as LaneEnd>⟧.got ends.1) (⟦<RingEnd as LaneEnd>⟧.kept ends.1)) }
{
    let (down, from_above) = RingBuffer::new(alloc, 32)?;
    let (up, from_below) = RingBuffer::new(alloc, 32)?;
    let above = RingEnd {
        outward: Outward::new(down),
        inward: Inward::new(from_below),
    };
    let below = RingEnd {
        outward: Outward::new(up),
        inward: Inward::new(from_above),
    };
    Ok((above, below))
}

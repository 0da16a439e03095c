ghost use Rattle.std.specs.Prelude.{◌≡◌, ◌++◌, length, drop};
ghost use Rattle.rtrb.specs.Ring.{sent};

use arrayvec::ArrayVec;
use lane_items::Item;
use rtrb::Producer;
use std::snapshot::Snapshot;

/// The near end of one lane: it pushes into a ring, and keeps in order what the ring had no slot
/// for.
#[derive(Drop)]
pub struct Outward {
    pub ring: Producer<Item>,
    // the ring's end as it was when the phase began
    pub begun: Snapshot<Producer<Item>>,
    pub waiting: ArrayVec<Item, 32>,
    pub ghost grew: { sent ring ≡ sent begun.value ++
        drop (length (sent begun.value)) (sent ring) },
}

impl Outward {
    ghost use Rattle.std.specs.Prelude.{◌≡◌, ◌+◌, ◌<◌, ◌≤◌, [], ◌∷◌, ◌++◌, length};
    ghost use Rattle.rtrb.specs.Ring.{sent, SameProducer};
    ghost use Rattle.lane_ends.specs.ring.Ends.{sent_out, StillSent};

    /// An end that has sent nothing.
    pub fn new(ring: Producer<Item>) -> Outward
        ensures ring { result.ring ≡ ring }
        ensures begun { result.begun.value ≡ ring }
        ensures empty { result.waiting.items ≡ [] }
    {
        let begun = Snapshot::of(&ring);
        Outward {
            ring,
            begun,
            waiting: ArrayVec::new(),
        }
    }

    /// Sends an item: into the ring where a slot is free and nothing waits, else it waits.
    pub fn send(&mut self, item: Item)
        requires { length self.old.waiting.items < 32 }
        ensures sent { sent_out self.new ≡ sent_out self.old ++ item ∷ [] }
        ensures kept { length self.new.waiting.items ≤ length self.old.waiting.items + 1 }
        ensures ring { SameProducer self.old.ring self.new.ring }
        ensures begun { self.new.begun ≡ self.old.begun }
    {
        self.waiting.push(item);
        self.push_waiting();
    }

    /// Pushes what waits, as far as the ring has slots.
    pub fn push_waiting(&mut self)
        ensures { StillSent self.old self.new }
    {
        for _ in 0..self.waiting.len() {
            self.push_oldest();
        }
    }

    /// Pushes the oldest item that waits, where there is one and the ring has a slot.
    fn push_oldest(&mut self)
        ensures { StillSent self.old self.new }
    {
        if self.waiting.is_empty() || self.ring.is_full() {
            return;
        }
        let item = self.waiting.remove(0);
        self.ring.push_reserved(item);
    }
}

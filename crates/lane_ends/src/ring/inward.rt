ghost use Rattle.std.specs.Prelude.{◌≡◌, ◌++◌, ◌<◌, ◌≤◌, length, drop};
ghost use Rattle.rtrb.specs.Ring.{received};

use arrayvec::ArrayVec;
use lane_items::Item;
use rtrb::Consumer;
use std::snapshot::Snapshot;

/// The far end of one lane: it gives what it has in hand, and then what it pops from the ring.
#[derive(Drop)]
pub struct Inward {
    pub ring: Consumer<Item>,
    // the ring's end as it was when the phase began
    pub begun: Snapshot<Consumer<Item>>,
    pub hand: ArrayVec<Item, 32>,
    pub taken: usize,
    pub ghost grew: { received ring ≡ received begun.value ++
        drop (length (received begun.value)) (received ring) },
    pub ghost in_hand: { taken ≤ length hand.items },
    pub ghost hand_first: { taken < length hand.items → received ring ≡ received begun.value },
}

impl Inward {
    ghost use Rattle.std.specs.Prelude.{◌≡◌, ◌+◌, ◌<◌, ◌≤◌, List, [], ◌∷◌, ◌++◌, length};
    ghost use Rattle.std.specs.Prelude.{option_to_list, Some, IfNone};
    ghost use Rattle.rtrb.specs.Ring.{received, SameConsumer};
    ghost use Rattle.lane_items.specs.declared.item.Item.{Item};
    ghost use Rattle.lane_items.specs.Lane.{in_hand};
    ghost use Rattle.lane_ends.specs.ring.Ends.{got_in};

    /// An end with nothing in hand.
    pub fn new(ring: Consumer<Item>) -> Inward
        ensures ring { result.ring ≡ ring }
        ensures begun { result.begun.value ≡ ring }
        ensures empty { (result.hand.items ≡ []) × (result.taken ≡ 0) }
    {
        let begun = Snapshot::of(&ring);
        Inward {
            ring,
            begun,
            hand: ArrayVec::new(),
            taken: 0,
        }
    }

    /// The oldest item in hand; where there is none, what one pop gives.
    pub fn receive(&mut self) -> Option<Item>
        ensures got { got_in self.new ≡ got_in self.old ++ option_to_list result }
        ensures oldest { (item : Item) (behind : List Item) →
            in_hand self.old.hand.items (got_in self.old) ≡ item ∷ behind → result ≡ Some item }
        ensures none { IfNone result (in_hand self.old.hand.items (got_in self.old) ≡ []) }
        ensures hand { self.new.hand.items ≡ self.old.hand.items }
        ensures ring { SameConsumer self.old.ring self.new.ring }
        ensures begun { self.new.begun ≡ self.old.begun }
    {
        if self.taken < self.hand.len() {
            let item = self.hand.as_slice()[self.taken];
            self.taken += 1;
            return Some(item);
        }
        self.ring.pop().ok()
    }
}

//! The end of a phase on one lane, where one thread has both of its ends.
ghost use Rattle.std.specs.Prelude.{◌≡◌, ◌+◌, ◌≤◌, ◌++◌, length, drop};
ghost use Rattle.rtrb.specs.Ring.{received, known_items, SameConsumer};
ghost use Rattle.lane_items.specs.Lane.{left_count, Crosses};
ghost use Rattle.lane_ends.specs.ring.Ends.{sent_out, got_in, AreOneLane, KnowsAll, Looked, Begins};

use crate::ring::inward::Inward;
use crate::ring::outward::Outward;
use arrayvec::ArrayVec;
use lane_items::Item;
use rtrb::Consumer;
use std::snapshot::Snapshot;

/// Looks at all that is in the ring.
pub fn look(near: &mut Outward, far: &mut Inward)
    requires { AreOneLane near.old far.old }
    ensures { Looked near.old far.old near.new far.new }
{
    far.ring.slots_beside(&mut near.ring);
}

/// Brings across all that was sent: what is left in hand, what is in the ring, and what waits.
pub fn cross(near: &mut Outward, far: &mut Inward)
    requires lane { AreOneLane near.old far.old }
    requires all { KnowsAll near.old far.old }
    requires fits { left_count far.old.hand.items (got_in far.old) (sent_out near.old) ≤ 32 }
    ensures crosses { Crosses far.old.hand.items (got_in far.old) (sent_out near.old)
        (length near.old.waiting.items) far.new.hand.items }
    ensures begins { Begins near.new far.new }
{
    let left = behind(&far.hand, far.taken);
    let hand = gathered(left, &mut far.ring, near.waiting.as_slice());
    near.waiting.clear();
    near.begun = Snapshot::of(&near.ring);
    far.begun = Snapshot::of(&far.ring);
    far.hand = hand;
    far.taken = 0;
}

/// The items behind the first ones.
fn behind(hand: &ArrayVec<Item, 32>, taken: usize) -> &[Item]
    requires { taken ≤ length hand.now.items }
    ensures { result.now ≡ drop taken hand.now.items }
{
    &hand.as_slice()[taken..]
}

/// What is left in hand, then what is known to be in the ring, then what waits.
fn gathered(left: &[Item], ring: &mut Consumer<Item>, waiting: &[Item]) -> ArrayVec<Item, 32>
    requires { length left.now + length (known_items ring.old) + length waiting.now ≤ 32 }
    ensures hand { result.items ≡ (left.now ++ known_items ring.old) ++ waiting.now }
    ensures received { received ring.new ≡ received ring.old ++ known_items ring.old }
    ensures ring { SameConsumer ring.old ring.new }
{
    let mut hand = ArrayVec::new();
    append(&mut hand, left);
    pop_all(ring, &mut hand);
    append(&mut hand, waiting);
    hand
}

/// Adds the items at the end.
fn append(hand: &mut ArrayVec<Item, 32>, items: &[Item])
    requires { length hand.old.items + length items.now ≤ 32 }
    ensures { hand.new.items ≡ hand.old.items ++ items.now }
{
    for item in items {
        hand.push(*item);
    }
}

/// Pops all items that are known to be in the ring, and adds them at the end.
fn pop_all(ring: &mut Consumer<Item>, hand: &mut ArrayVec<Item, 32>)
    requires { length hand.old.items + length (known_items ring.old) ≤ 32 }
    ensures hand { hand.new.items ≡ hand.old.items ++ known_items ring.old }
    ensures received { received ring.new ≡ received ring.old ++ known_items ring.old }
    ensures ring { SameConsumer ring.old ring.new }
{
    for _ in 0..ring.cached_slots() {
        hand.push(ring.pop_known());
    }
}

ghost use Rattle.std.specs.Prelude.{◌≡◌, ◌↔◌, ℕ, ◌+◌, ◌<◌, ◌≤◌, List, [], ◌∷◌, ◌++◌, length, drop};
ghost use Rattle.std.specs.Prelude.{option_to_list, slice_get, IsTrue, IsNone, IfNone};
ghost use Rattle.lane_items.specs.declared.item.Item.{Item};
ghost use Rattle.lane_items.specs.Lane.{in_hand, KeepsPairs};
ghost use Rattle.lane_ends.specs.plain.Plain.{PlainState};

use arrayvec::ArrayVec;
use lane_items::{Item, LaneEnd};
use std::marker::Model;

/// One end of a bridge's two lanes. It keeps all that it sends until `settle` brings it across, and
/// takes no memory.
#[derive(Debug, Drop)]
pub struct PlainEnd {
    hand: ArrayVec<Item, 32>,
    taken: usize,
    sent: ArrayVec<Item, 32>,
}

impl Model for PlainEnd {
    ghost use Rattle.std.specs.Prelude.{◌≤◌, length, take, drop};
    ghost use Rattle.lane_ends.specs.plain.Plain.{PlainState};

    ghost Value = { PlainState };

    ghost view = { λ end. record {
      got = take end.taken end.hand.items;
      hand = drop end.taken end.hand.items;
      sent = end.sent.items;
    } };

    ghost invariant = { λ end. (end.taken ≤ length end.hand.items) × (length end.hand.items ≤ 32) ×
        (length end.sent.items ≤ 32) };
}

impl PlainEnd {
    /// An end with nothing in hand and nothing sent. Any two are the ends of one bridge.
    pub fn new() -> PlainEnd
        ensures empty { result ≡ record { got = []; hand = []; sent = [] } }
        ensures paired { (other : PlainState) → ⟦<PlainEnd as LaneEnd>⟧.paired result other }
    {
        PlainEnd {
            hand: ArrayVec::new(),
            taken: 0,
            sent: ArrayVec::new(),
        }
    }

    /// What is in hand, oldest first.
    pub fn hand(&self) -> &[Item]
        ensures hand { result.now ≡ self.now.hand }
        ensures in_hand { result.now ≡
            in_hand (⟦<PlainEnd as LaneEnd>⟧.had self.now) (⟦<PlainEnd as LaneEnd>⟧.got self.now) }
    {
        &self.hand.as_slice()[self.taken..]
    }

    /// What was sent in this phase, oldest first.
    fn sent(&self) -> &[Item]
        ensures { result.now ≡ self.now.sent }
    {
        self.sent.as_slice()
    }

    /// Whether nothing was in hand when the phase began, and nothing was sent since.
    fn is_idle(&self) -> bool
        ensures { IsTrue result ↔ (self.now ≡ record { got = []; hand = []; sent = [] }) }
    {
        self.hand.is_empty() && self.sent.is_empty()
    }

    /// Begins a phase: what was got is gone, and these items come behind what is in hand.
    fn refill(&mut self, items: &[Item])
        requires { length self.old.hand + length items.now ≤ 32 }
        ensures { self.new ≡ record self.old { got = []; hand = self.old.hand ++ items.now } }
    {
        self.forget_got();
        append(&mut self.hand, items);
    }

    /// Only what is still in hand stays in the table.
    fn forget_got(&mut self)
        ensures { self.new ≡ record self.old { got = [] } }
    {
        if self.taken == self.hand.len() {
            self.hand.clear();
        } else if self.taken > 0 {
            self.hand = table_of(self.hand());
        }
        self.taken = 0;
    }

    /// What was sent has crossed.
    fn forget_sent(&mut self)
        ensures { self.new ≡ record self.old { sent = [] } }
    {
        self.sent.clear();
    }
}

impl Default for PlainEnd {
    ghost is_default = { λ end. end ≡ record { got = []; hand = []; sent = [] } };

    fn default() -> PlainEnd {
        PlainEnd::new()
    }
}

impl LaneEnd for PlainEnd {
    ghost use Rattle.std.specs.Prelude.{length, ⊤};
    ghost use Rattle.std.proofs.Common.{rules};
    ghost use Rattle.lane_ends.specs.plain.Plain.{had_in};

    ghost had = { had_in };

    ghost sent = { λ end. end.sent };

    ghost got = { λ end. end.got };

    ghost kept = { λ end. length end.sent };

    ghost paired = { λ _ _. ⊤ };

    ghost kept_were_sent = { Prim.search rules };

    ghost paired_both_ways = { λ _ _ paired. paired };

    fn room(&self) -> u32 {
        32 - self.sent.len() as u32
    }

    fn send(&mut self, item: Item) {
        self.sent.push(item);
    }

    /// The oldest item in hand. What was sent in this phase is not in hand before `settle`.
    fn receive(&mut self) -> Option<Item>
        ensures item { result ≡ slice_get self.old.hand 0 }
        ensures none { IsNone result ↔ (self.old.hand ≡ []) }
        ensures got { self.new ≡ record self.old
            { got = self.old.got ++ option_to_list result; hand = drop 1 self.old.hand } }
    {
        let item = self.hand.as_slice().get(self.taken).copied()?;
        self.taken += 1;
        Some(item)
    }

    fn settle(a: &mut PlainEnd, b: &mut PlainEnd) {
        if a.is_idle() && b.is_idle() {
            return;
        }
        a.refill(b.sent());
        b.refill(a.sent());
        a.forget_sent();
        b.forget_sent();
    }
}

/// The items in a table.
fn table_of(items: &[Item]) -> ArrayVec<Item, 32>
    requires { length items.now ≤ 32 }
    ensures { result.items ≡ items.now }
{
    let mut table = ArrayVec::new();
    append(&mut table, items);
    table
}

/// Adds the items at the end.
fn append(table: &mut ArrayVec<Item, 32>, items: &[Item])
    requires { length table.old.items + length items.now ≤ 32 }
    ensures { table.new.items ≡ table.old.items ++ items.now }
{
    for item in items {
        table.push(*item);
    }
}

ghost use Rattle.std.specs.Prelude.{◌≡◌, ℕ, ◌+◌, ◌<◌, ◌≤◌, List, [], ◌∷◌, ◌++◌, length};
ghost use Rattle.std.specs.Prelude.{option_to_list, IfNone};
ghost use Rattle.lane_items.specs.declared.item.Item.{Item};
ghost use Rattle.lane_items.specs.Lane.{in_hand, GotInOrder, left_count, Crosses, IsEmptied};
ghost use Rattle.lane_items.specs.Lane.{KeepsPairs};

use crate::Item;

/// One end of a bridge's two lanes, on the bus of that end: it sends into the lane away from its
/// bus, and receives from the lane towards it. A phase is the time from one `settle` to the next.
/// During a phase an item may cross or not; `settle` brings across all that was sent.
pub trait LaneEnd: Sized {
    // what was in hand after the last settle, oldest first
    ghost had: { Self → List Item };

    // what was handed to `send` in this phase, oldest first
    ghost sent: { Self → List Item };

    // what `receive` gave in this phase, oldest first
    ghost got: { Self → List Item };

    // how many items of `sent` still lie in this end
    ghost kept: { Self → ℕ };

    // whether two ends are those of one bridge
    ghost paired: { Self → Self → Type 0 };

    /// How many more items `send` is sure to take.
    fn room(&self) -> u32
        ensures { result + kept self.now ≡ 32 };

    /// Sends an item towards the other end.
    fn send(&mut self, item: Item)
        requires { kept self.old < 32 }
        ensures sent { sent self.new ≡ sent self.old ++ item ∷ [] }
        ensures kept { kept self.new ≤ kept self.old + 1 }
        ensures had { had self.new ≡ had self.old }
        ensures got { got self.new ≡ got self.old }
        ensures pairs { KeepsPairs paired self.old self.new };

    /// The oldest item in hand. Where nothing is in hand, an item that the other end sent in this
    /// phase and that has crossed, or None.
    fn receive(&mut self) -> Option<Item>
        ensures got { got self.new ≡ got self.old ++ option_to_list result }
        ensures oldest { (item : Item) (behind : List Item) →
            in_hand (had self.old) (got self.old) ≡ item ∷ behind → result ≡ Some item }
        ensures none { IfNone result (in_hand (had self.old) (got self.old) ≡ []) }
        ensures kept { kept self.new ≤ kept self.old }
        ensures had { had self.new ≡ had self.old }
        ensures sent { sent self.new ≡ sent self.old }
        ensures pairs { KeepsPairs paired self.old self.new };

    /// Ends a phase: what each end sent, and the other did not get, is then in the other's hand. Of
    /// each lane it wants that at most 32 items are left, and it wants this only of lanes on which
    /// the items were got in the order of their sending.
    fn settle(a: &mut Self, b: &mut Self)
        requires paired { paired a.old b.old }
        requires fits { GotInOrder (had b.old) (got b.old) (sent a.old) (kept a.old) →
            GotInOrder (had a.old) (got a.old) (sent b.old) (kept b.old) →
            (left_count (had b.old) (got b.old) (sent a.old) ≤ 32)
            × (left_count (had a.old) (got a.old) (sent b.old) ≤ 32) }
        ensures to_b { Crosses (had b.old) (got b.old) (sent a.old) (kept a.old) (had b.new) }
        ensures to_a { Crosses (had a.old) (got a.old) (sent b.old) (kept b.old) (had a.new) }
        ensures a { IsEmptied (sent a.new) (got a.new) (kept a.new) }
        ensures b { IsEmptied (sent b.new) (got b.new) (kept b.new) }
        ensures paired { paired a.new b.new };

    // only what was sent can be kept
    ghost kept_were_sent: { (end : Self) → kept end ≤ length (sent end) };

    // the ends of one bridge are so either way round
    ghost paired_both_ways: { (a b : Self) → paired a b → paired b a };
}

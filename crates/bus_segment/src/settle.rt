ghost use Rattle.std.specs.Prelude.{◌≡◌, ◌<◌, length};
ghost use Rattle.std.specs.Vec.{vec_capacity};
ghost use Rattle.bus_segment.specs.Settle.{MaySettle, SettlesAt};

use crate::Segment;
use lane_items::LaneEnd;

impl<L: LaneEnd + Drop> Segment<L> {
    /// Ends a phase of the bridge between this segment's port at the place and the other segment's
    /// port at the other place: what was sent from each bus, and was not got on the other, is in
    /// hand there. All else of both stays as it is.
    pub fn settle_with(&mut self, place: usize, other: &mut Segment<L>, other_place: usize)
        requires place { place < length self.old.ends.items }
        requires other_place { other_place < length other.old.ends.items }
        requires may { MaySettle L.had L.sent L.got L.kept L.paired self.old.ends.items place
            other.old.ends.items other_place }
        ensures settles { SettlesAt L.had L.sent L.got L.kept L.paired self.old.ends.items place
            other.old.ends.items other_place self.new.ends.items other.new.ends.items }
        ensures bus { self.new.bus ≡ self.old.bus }
        ensures stamp { self.new.stamp ≡ self.old.stamp }
        ensures stopped { self.new.stopped ≡ self.old.stopped }
        ensures events { self.new.events.items ≡ self.old.events.items }
        ensures spare { vec_capacity self.new.events ≡ vec_capacity self.old.events }
        ensures other_bus { other.new.bus ≡ other.old.bus }
        ensures other_stamp { other.new.stamp ≡ other.old.stamp }
        ensures other_stopped { other.new.stopped ≡ other.old.stopped }
        ensures other_events { other.new.events.items ≡ other.old.events.items }
        ensures other_spare { vec_capacity other.new.events ≡ vec_capacity other.old.events }
    {
        settle_ends(
            self.ends.as_mut_slice(),
            place,
            other.ends.as_mut_slice(),
            other_place,
        );
    }
}

/// The two ends at these places are settled.
fn settle_ends<L: LaneEnd>(here: &mut [L], place: usize, there: &mut [L], other_place: usize)
    requires place { place < length here.old }
    requires other_place { other_place < length there.old }
    requires may { MaySettle L.had L.sent L.got L.kept L.paired here.old place
        there.old other_place }
    ensures { SettlesAt L.had L.sent L.got L.kept L.paired here.old place there.old other_place
        here.new there.new }
{
    let one = &mut here[place];
    let other = &mut there[other_place];
    L::settle(one, other);
}

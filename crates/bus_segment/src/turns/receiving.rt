ghost use Rattle.std.specs.Prelude.{◌≡◌, ◌+◌, ◌*◌, ◌<◌, ◌≤◌, true, false, length, vec_len};
ghost use Rattle.std.specs.Vec.{vec_capacity};
ghost use Rattle.board_model.specs.Valid.{IsValid};
ghost use Rattle.bus_segment.specs.Steps.{ArrivedUpTo, NothingCame};
ghost use Rattle.bus_segment.specs.turns.Works.{seen, Works, NoneInHand};
ghost use Rattle.board_model.specs.Limits.{most_waiting};

use crate::Segment;
use board_model::{Board, MOST_WAITING};
use lane_items::LaneEnd;

/// How many items are received from one end in a turn.
const ITEMS: u32 = MOST_WAITING as u32;

/// What came over each bridge of the bus is received, as long as the segment does not stop.
pub(crate) fn receive_all<L: LaneEnd + Drop>(segment: &mut Segment<L>, board: &Board)
    requires valid { IsValid board.now }
    requires going { segment.old.stopped ≡ false }
    requires ends { length segment.old.ends.items ≡ length segment.old.bus.ports }
    requires counts { ArrivedUpTo (length segment.old.events.items) segment.old.bus }
    requires spare { vec_len segment.old.events + most_waiting * length segment.old.bus.ports ≤
        vec_capacity segment.old.events }
    ensures works { Works L.had L.sent L.got L.kept L.paired board.now
        (most_waiting * length segment.old.bus.ports)
        (seen segment.old.bus segment.old.stamp segment.old.stopped)
        (seen segment.new.bus segment.new.stamp segment.new.stopped)
        segment.old.ends.items segment.new.ends.items segment.old.events.items
        segment.new.events.items }
    ensures spare { vec_capacity segment.old.events ≤ vec_capacity segment.new.events }
    ensures same { length segment.new.events.items ≡ length segment.old.events.items →
        segment.new.stopped ≡ false → segment.new.bus ≡ segment.old.bus }
    ensures quiet { length segment.new.events.items ≡ length segment.old.events.items →
        segment.new.stopped ≡ false → NoneInHand L.had L.got segment.new.ends.items }
{
    for place in 0..segment.bus().ports() {
        if segment.stopped() {
            return;
        }
        receive_from(segment, board, place);
    }
}

/// As many items as may wait are received from the end of the port at this place.
fn receive_from<L: LaneEnd + Drop>(segment: &mut Segment<L>, board: &Board, place: usize)
    requires valid { IsValid board.now }
    requires place { place < length segment.old.bus.ports }
    requires going { segment.old.stopped ≡ false }
    requires ends { length segment.old.ends.items ≡ length segment.old.bus.ports }
    requires counts { ArrivedUpTo (length segment.old.events.items) segment.old.bus }
    requires spare { vec_len segment.old.events + most_waiting ≤ vec_capacity segment.old.events }
    ensures works { Works L.had L.sent L.got L.kept L.paired board.now most_waiting
        (seen segment.old.bus segment.old.stamp segment.old.stopped)
        (seen segment.new.bus segment.new.stamp segment.new.stopped)
        segment.old.ends.items segment.new.ends.items segment.old.events.items
        segment.new.events.items }
    ensures spare { vec_capacity segment.old.events ≤ vec_capacity segment.new.events }
    ensures same { length segment.new.events.items ≡ length segment.old.events.items →
        segment.new.stopped ≡ false → segment.new.bus ≡ segment.old.bus }
    ensures quiet { length segment.new.events.items ≡ length segment.old.events.items →
        segment.new.stopped ≡ false →
        NothingCame L.had L.got place segment.old.ends.items segment.new.ends.items }
{
    for _received in 0..ITEMS {
        if !receive_one(segment, board, place) {
            return;
        }
        if segment.stopped() {
            return;
        }
    }
}

/// One item is received from the end of the port at this place, if one is there. Whether one was.
fn receive_one<L: LaneEnd + Drop>(segment: &mut Segment<L>, board: &Board, place: usize) -> bool
    requires valid { IsValid board.now }
    requires place { place < length segment.old.bus.ports }
    requires going { segment.old.stopped ≡ false }
    requires ends { length segment.old.ends.items ≡ length segment.old.bus.ports }
    requires counts { ArrivedUpTo (length segment.old.events.items) segment.old.bus }
    requires spare { vec_len segment.old.events + 1 ≤ vec_capacity segment.old.events }
    ensures works { Works L.had L.sent L.got L.kept L.paired board.now 1
        (seen segment.old.bus segment.old.stamp segment.old.stopped)
        (seen segment.new.bus segment.new.stamp segment.new.stopped)
        segment.old.ends.items segment.new.ends.items segment.old.events.items
        segment.new.events.items }
    ensures spare { vec_capacity segment.old.events ≤ vec_capacity segment.new.events }
    ensures some { result ≡ true → segment.new.stopped ≡ false →
        length segment.new.events.items ≡ length segment.old.events.items + 1 }
    ensures same { result ≡ false → segment.new.bus ≡ segment.old.bus }
    ensures none { result ≡ false →
        NothingCame L.had L.got place segment.old.ends.items segment.new.ends.items }
{
    let _spare = segment.spare();
    segment.receive(board, place)
}

ghost use Rattle.std.specs.Prelude.{◌≡◌, ◌≢◌, ◌<◌, length, slice_get, Some, true, false};
ghost use Rattle.bus_core.specs.declared.given.Sent.{Sent as SentItem};
ghost use Rattle.bus_segment.specs.Ends.{HasRoom, LacksRoom, ReceivesOne};
ghost use Rattle.bus_segment.specs.Ends.{SendsOne, SendsAt, SendsBoth, sent_at};
ghost use Rattle.bus_core.specs.Calls.{stamp_of};
ghost use Rattle.board_model.specs.Limits.{most_waiting};

use bus_core::Sent;
use lane_items::{Item, LaneEnd};

/// Whether the end of the port takes what is to be sent there, if anything is.
pub(crate) fn has_room<L: LaneEnd>(ends: &[L], sent: Option<Sent>) -> bool
    ensures room { result ≡ true → HasRoom L.kept ends.now sent }
    ensures full { result ≡ false → LacksRoom L.kept ends.now sent }
{
    match sent {
        Some(sent) => sent.place >= ends.len() || ends[sent.place].room() > 0,
        None => true,
    }
}

/// What goes on over one bridge, and what goes back over another, is sent.
pub(crate) fn send_both<L: LaneEnd>(ends: &mut [L], over: Option<Sent>, back: Option<Sent>)
    requires over { HasRoom L.kept ends.old over }
    requires back { HasRoom L.kept ends.old back }
    requires apart { (a b : SentItem) → over ≡ Some a → back ≡ Some b → a.place ≢ b.place }
    ensures { SendsBoth L.had L.sent L.got L.paired ends.old over back ends.new }
{
    send_at(ends, over);
    send_at(ends, back);
}

/// What is to be sent, if anything is, is sent at its port.
pub(crate) fn send_at<L: LaneEnd>(ends: &mut [L], sent: Option<Sent>)
    requires { HasRoom L.kept ends.old sent }
    ensures { SendsAt L.had L.sent L.got L.paired ends.old sent ends.new }
{
    match sent {
        Some(sent) if sent.place < ends.len() => send_one(ends, sent.place, sent.item),
        Some(_) | None => {}
    }
}

fn send_one<L: LaneEnd>(ends: &mut [L], place: usize, item: Item)
    requires place { place < length ends.old }
    requires room { (end : L) → slice_get ends.old place ≡ Some end → L.kept end < most_waiting }
    ensures { SendsOne L.had L.sent L.got L.paired place ends.old item ends.new }
{
    let end = &mut ends[place];
    end.send(item);
}

/// What the end of the port at the place gives.
pub(crate) fn receive_at<L: LaneEnd>(ends: &mut [L], place: usize) -> Option<Item>
    requires { place < length ends.old }
    ensures { ReceivesOne L.had L.sent L.got L.kept L.paired place ends.old result ends.new }
{
    let end = &mut ends[place];
    end.receive()
}

/// The item, if there is one, is to be sent at the port of this place.
pub(crate) fn sent_at(place: usize, item: Option<Item>) -> Option<Sent>
    ensures { result ≡ sent_at place item }
{
    match item {
        Some(item) => Some(Sent { place, item }),
        None => None,
    }
}

/// The stamp of an item.
pub(crate) fn stamp_of(item: Item) -> u32
    ensures { result ≡ stamp_of item }
{
    match item {
        Item::Post { stamp, .. }
        | Item::Ask { stamp, .. }
        | Item::Done { stamp, .. }
        | Item::Room { stamp }
        | Item::Gone { stamp, .. } => stamp,
    }
}

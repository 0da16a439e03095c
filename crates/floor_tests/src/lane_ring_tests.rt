use lane_ends::{RingEnd, ring_pair};
use lane_items::{Item, LaneEnd};
use pci_command::NoMemory;
use std::thread;

const SENT: Item = Item::Gone { slot: 1, stamp: 4 };

fn send_if_room(end: &mut RingEnd, item: Item) {
    if end.room() > 0 {
        end.send(item);
    }
}

/// The end at place 0 sends an item; the other, on another thread, waits for it and sends it back.
fn work(place: usize, end: &mut RingEnd) {
    if place == 0 {
        send_if_room(end, SENT);
        return;
    }
    for _ in 0..100_000_000u32 {
        if let Some(item) = end.receive() {
            send_if_room(end, item);
            return;
        }
        thread::yield_now();
    }
}

#[test]
fn an_item_crosses_between_threads(rt: HostRuntime) -> Result<(), NoMemory> {
    let (above, below) = ring_pair(rt.alloc())?;
    let mut ends = [above, below];
    thread::for_each_mut(&rt, &mut ends, 2, &|place, end| work(place, end));
    assert_eq!(rt; ends[0].receive(), Some(SENT));
    assert_eq!(rt; ends[1].receive(), None);
    Ok(())
}

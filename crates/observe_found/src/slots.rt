use crate::errands::{Errand, Errands};
use crate::ground::{Ground, NO_PLACE};
use board_model::{Lane, bridge_to};
use pci_command::NoMemory;

/// How many slots of a lane are held at each line of the bus where it begins.
#[derive(Drop)]
pub(crate) struct Held {
    most: u32,
    counts: Vec<u8>,
}

/// Lines of a bus at which a slot is held, by the places of the first and the one behind the last.
#[derive(Clone, Copy)]
struct Hold {
    first: u32,
    end: u32,
}

/// How many slots of a lane are free again before a line of the bus where it begins, held from it
/// on, and free again behind it. What frees a slot elsewhere comes before a latch of the same line,
/// and what frees it there behind it.
#[derive(Clone, Copy, Default, PartialEq, Eq)]
pub(crate) struct Change {
    before: u16,
    latched: u16,
    behind: u16,
}

/// Whether more slots are held at some line than there are.
pub(crate) fn overflows(changes: &[Change], slots: u32) -> bool {
    let mut held = 0u32;
    for change in changes {
        if *change == Change::default() {
            continue;
        }
        held = held.saturating_sub(u32::from(change.before));
        held = held.saturating_add(u32::from(change.latched));
        if held > slots {
            return true;
        }
        held = held.saturating_sub(u32::from(change.behind));
    }
    false
}

impl Held {
    /// None of the lane.
    pub(crate) fn new(ground: &Ground, lane: Lane) -> Result<Held, NoMemory> {
        let lines = ground.on_bus(ground.start_of(lane)).len();
        Ok(Held {
            most: slots_of(ground, lane),
            counts: vec![in ground.alloc; 0u8; lines]?,
        })
    }

    /// The slots of these far errands are held, too: whether there are so many.
    pub(crate) fn hold(&mut self, ground: &Ground, errands: &Errands, fars: &[u32]) -> bool {
        let mut suffice = true;
        for far in fars {
            if let Some(hold) = hold_of(ground, errands, *far) {
                suffice = self.add(hold) && suffice;
            }
        }
        suffice
    }

    /// They are not.
    pub(crate) fn free(&mut self, ground: &Ground, errands: &Errands, fars: &[u32]) {
        for far in fars {
            if let Some(hold) = hold_of(ground, errands, *far) {
                self.remove(hold);
            }
        }
    }

    fn add(&mut self, hold: Hold) -> bool {
        let most = self.most;
        let mut suffice = true;
        let end = self.counts.len().min(hold.end as usize);
        if let Some(held) = self.counts.as_mut_slice().get_mut(hold.first as usize..end) {
            for count in held.iter_mut() {
                *count = count.saturating_add(1);
                suffice = suffice && u32::from(*count) <= most;
            }
        }
        suffice
    }

    fn remove(&mut self, hold: Hold) {
        let end = self.counts.len().min(hold.end as usize);
        if let Some(held) = self.counts.as_mut_slice().get_mut(hold.first as usize..end) {
            for count in held.iter_mut() {
                *count = count.saturating_sub(1);
            }
        }
    }
}

/// Where the slot of a far errand is held: to where its completion was taken, or was gone. One that
/// nobody took to the end of the log may have been gone as soon as it was there.
fn hold_of(ground: &Ground, errands: &Errands, far: u32) -> Option<Hold> {
    let errand = errands.get(far);
    let latch = errand.latch()?;
    let near = errands.get(errand.near()?);
    let is_last = near.last_far() == Some(far) && near.ended().is_some();
    let first = ground.place(latch);
    let end = match freed(ground, &errand, &near, latch, is_last) {
        Some((place, 0)) => place,
        Some((place, _)) => place.saturating_add(1),
        None => NO_PLACE,
    };
    Some(Hold { first, end })
}

/// How many slots the bridge of the lane has.
pub(crate) fn slots_of(ground: &Ground, lane: Lane) -> u32 {
    bridge_to(ground.board, lane.bus).map_or(0, |bridge| u32::from(bridge.delayed))
}

/// Notes when the slot of a far errand was held, by what the near bus did.
pub(crate) fn note_changes(
    ground: &Ground,
    errands: &Errands,
    far: u32,
    changes: &mut Vec<Change>,
) {
    let errand = errands.get(far);
    let (Some(latch), Some(near)) = (errand.latch(), errand.near()) else {
        return;
    };
    if let Some(change) = changes.get_mut(ground.place(latch) as usize) {
        change.latched = change.latched.saturating_add(1);
    }
    let near = errands.get(near);
    let is_last = near.last_far() == Some(far);
    if let Some((place, order)) = freed(ground, &errand, &near, latch, is_last)
        && let Some(change) = changes.get_mut(place as usize)
    {
        if order == 0 {
            change.before = change.before.saturating_add(1);
        } else {
            change.behind = change.behind.saturating_add(1);
        }
    }
}

/// Where the slot is free again: where the completion was taken, or as soon as it was discarded.
fn freed(
    ground: &Ground,
    far: &Errand,
    near: &Errand,
    latch: u32,
    is_last: bool,
) -> Option<(u32, u32)> {
    if is_last {
        return Some((ground.place(near.ended()?), 2));
    }
    let bus = ground.seen(latch)?.bus;
    if far.ended().is_none() {
        return None;
    }
    let gone = ground.first_behind(bus, far.release());
    if gone <= ground.place(latch) {
        Some((ground.place(latch), 2))
    } else {
        Some((gone, 0))
    }
}

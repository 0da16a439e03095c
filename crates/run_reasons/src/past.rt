//! What went over the lanes before an event that is told of: when each item was sent, came and
//! left, by the moves of the events. Their numbers count from 1; where the arrivals among them are
//! left away, each item comes by the event that sent it.
use board_model::Lane;
use history_model::{Carried, Move};
use machine_moves::is_like;
use pci_command::{NoMemory, OpId};
use std::alloc::Global;

/// An item on a lane, and the events by which it was sent, came and left; 0 where it did not.
#[derive(Clone, Copy)]
struct Passage {
    lane: Lane,
    item: Carried,
    sent: usize,
    came: usize,
    left: usize,
}

/// What became of an operation that is not on a lane.
pub(crate) enum Went {
    /// It was never sent there.
    Nowhere,
    /// It was dropped there.
    Dropped,
    /// It left by this event.
    Left { event: usize },
}

/// All that went over the lanes.
#[derive(Drop)]
pub(crate) struct Past {
    /// In the order of sending.
    passages: Vec<Passage>,
    /// The places of those that are in flight or stand, in that order.
    under_way: Vec<usize>,
}

impl Past {
    /// Nothing was sent.
    pub(crate) fn new(alloc: Global) -> Past {
        Past {
            passages: Vec::new(alloc),
            under_way: Vec::new(alloc),
        }
    }

    /// The moves of event number n.
    pub(crate) fn note(&mut self, n: usize, moves: &[Move]) -> Result<(), NoMemory> {
        for one in moves {
            match *one {
                Move::Sent { lane, item, .. } => self.send(n, lane, item)?,
                Move::Came { lane, .. } => self.come(n, lane, false),
                Move::Lost { lane, .. } => self.come(n, lane, true),
                Move::Left { lane, item } => self.leave(n, lane, item),
                Move::Held { .. } | Move::Freed { .. } | Move::Owed { .. } | Move::Paid { .. } => {}
            }
        }
        Ok(())
    }

    /// The event by which the item arrived on the lane.
    pub(crate) fn since(&self, lane: Lane, item: Carried) -> Option<usize> {
        match self.last(lane, item) {
            Some(passage) if passage.came > 0 => Some(passage.came),
            Some(_) | None => None,
        }
    }

    /// What became of the operation, which is not on the lane.
    pub(crate) fn went(&self, lane: Lane, op: OpId) -> Went {
        match self.last(lane, Carried::Post { op }) {
            Some(passage) if passage.left > 0 => Went::Left {
                event: passage.left,
            },
            Some(_) => Went::Dropped,
            None => Went::Nowhere,
        }
    }

    /// The last so many posted writes that were accepted on the lane, the oldest first.
    pub(crate) fn accepted(
        &self,
        alloc: Global,
        lane: Lane,
        count: u8,
    ) -> Result<Vec<OpId>, NoMemory> {
        let mut accepted = Vec::new(alloc);
        for passage in self.passages.as_slice().iter().rev() {
            if accepted.len() >= usize::from(count) {
                break;
            }
            if let Carried::Post { op } = passage.item
                && passage.lane == lane
            {
                accepted.push(op)?;
            }
        }
        accepted.reverse();
        Ok(accepted)
    }

    /// The lanes on which a delayed request of the operation was sent, the last first, each with
    /// its event.
    pub(crate) fn latched(&self, alloc: Global, op: OpId) -> Result<Vec<(usize, Lane)>, NoMemory> {
        let mut latched = Vec::new(alloc);
        for passage in self.passages.as_slice().iter().rev() {
            if let Carried::Ask { op: other, .. } = passage.item
                && other == op
            {
                latched.push((passage.sent, passage.lane))?;
            }
        }
        Ok(latched)
    }

    /// The last on the lane that is like the item.
    fn last(&self, lane: Lane, item: Carried) -> Option<Passage> {
        for passage in self.passages.as_slice().iter().rev() {
            if passage.lane == lane && is_like(item, passage.item) {
                return Some(*passage);
            }
        }
        None
    }

    fn send(&mut self, n: usize, lane: Lane, item: Carried) -> Result<(), NoMemory> {
        let place = self.passages.len();
        self.passages.push(Passage {
            lane,
            item,
            sent: n,
            came: 0,
            left: 0,
        })?;
        self.under_way.push(place)?;
        Ok(())
    }

    /// The oldest in flight on the lane comes, and stands or is lost.
    fn come(&mut self, n: usize, lane: Lane, is_lost: bool) {
        if let Some(place) = self.first(lane, None)
            && place < self.passages.len()
        {
            self.passages[place].came = n;
            if is_lost {
                self.under_way.retain(|other| *other != place);
            }
        }
    }

    /// The oldest that stands where the lane ends and is like the item leaves.
    fn leave(&mut self, n: usize, lane: Lane, item: Carried) {
        if let Some(place) = self.first(lane, Some(item))
            && place < self.passages.len()
        {
            self.passages[place].left = n;
            self.under_way.retain(|other| *other != place);
        }
    }

    /// The place of the oldest in flight on the lane; or of the oldest that stands where it ends
    /// and is like the item.
    fn first(&self, lane: Lane, like: Option<Carried>) -> Option<usize> {
        for place in self.under_way.as_slice() {
            if let Some(passage) = self.passages.as_slice().get(*place)
                && passage.lane == lane
                && is_at(*passage, like)
            {
                return Some(*place);
            }
        }
        None
    }
}

/// Whether it is in flight; or whether it stands and is like the item.
fn is_at(passage: Passage, like: Option<Carried>) -> bool {
    match like {
        Some(item) => passage.came > 0 && is_like(item, passage.item),
        None => passage.came == 0,
    }
}

/// The lane of the same bridge in the other direction.
pub(crate) fn back_of(lane: Lane) -> Lane {
    Lane {
        bus: lane.bus,
        up: !lane.up,
    }
}

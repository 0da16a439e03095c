use crate::{By, Step};
use board_model::{Lane, Place};
use pci_command::{OpId, Outcome};

/// What a lane carries.
#[derive(Clone, Copy, Debug, Default, PartialEq, Eq)]
pub enum Carried {
    /// A posted memory write.
    Post {
        op: OpId,
    },
    /// A delayed request, for which the near face holds a slot.
    Ask {
        op: OpId,
        slot: u8,
    },
    /// The completion of the delayed request of that slot.
    Done {
        op: OpId,
        slot: u8,
        outcome: Outcome,
    },
    /// A credit for a posted write that left.
    #[default]
    Room,
    /// The word that the request of that slot was dropped.
    Gone {
        slot: u8,
    },
}

/// What an event found on the lanes.
#[derive(Clone, Copy, Debug, Default, PartialEq, Eq)]
pub struct Moved {
    /// The number of the slot that the act took, or that is held from now on, where a lane claimed
    /// it.
    pub slot: Option<u8>,
    /// What stood, and ended by the act, on the lane that presented it; of an arrival what came.
    pub item: Option<Carried>,
}

/// One thing that an event does to a lane.
#[derive(Clone, Copy, Debug, PartialEq, Eq)]
pub enum Move {
    /// The item is in flight, after all others; whose it is (of a credit: of the write that left).
    Sent { lane: Lane, op: OpId, item: Carried },
    /// The oldest in flight is where the lane ends, and stands there.
    Came { lane: Lane, item: Carried },
    /// The oldest in flight is where the lane ends, and does not stand: a credit, a word, or what
    /// the board discards or drops.
    Lost { lane: Lane, item: Carried },
    /// The oldest that stands there and is like it is gone.
    Left { lane: Lane, item: Carried },
    /// The slot is held where the lane begins.
    Held { lane: Lane, slot: Slot },
    /// The slot of this number is free there.
    Freed { lane: Lane, number: u8 },
    /// One more posted write is owed there.
    Owed { lane: Lane },
    /// One less is owed there.
    Paid { lane: Lane },
}

/// What a table of moves has where nothing was put yet.
impl Default for Move {
    fn default() -> Move {
        Move::Owed {
            lane: Lane { bus: 0, up: false },
        }
    }
}

/// A slot held at the face where a delayed request was latched: its number, which local master
/// presented the request there, and the operation.
#[derive(Clone, Copy, Debug, Default, PartialEq, Eq)]
pub struct Slot {
    pub number: u8,
    pub by: By,
    pub op: OpId,
}

/// Why a bridge answers with Retry and nothing happens.
#[derive(Clone, Copy, Debug, PartialEq, Eq)]
pub enum Cause {
    /// It owes as many posted writes as it holds.
    Full,
    /// All its slots for delayed requests are held.
    NoSlot,
    /// The completion of this delayed request has not come.
    Waiting,
    /// A posted write stands before the completion of this read.
    Behind,
}

/// What an operation that is presented on a bus is answered.
#[derive(Clone, Copy, Debug, PartialEq, Eq)]
pub enum Answer {
    /// An event: this step, by the one who claims it.
    Gives { step: Step, place: Place },
    /// No event: the initiator has to repeat it.
    Retry { cause: Cause },
}

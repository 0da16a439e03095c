use board_model::{Lane, Place};
use pci_command::{OpId, Outcome};

/// What the board has an arrival do to its item.
#[derive(Clone, Copy, Debug, Default, PartialEq, Eq)]
pub enum Mark {
    /// It stands, or acts.
    #[default]
    Plain,
    /// A delayed completion is thrown away, as by a discard timer (PCI-to-PCI Bridge Architecture
    /// 1.1, section 5.4; section from memory).
    Discard,
    /// A delayed request that was never presented on the far bus is thrown away.
    Drop,
}

/// Who presents an operation on a bus: its own master, or the lane of a bridge that ends there.
#[derive(Clone, Copy, Debug, Default, PartialEq, Eq)]
pub enum By {
    #[default]
    Master,
    Lane(Lane),
}

/// How a transaction on a bus ended, where it did not end in a fruitless Retry.
#[derive(Clone, Copy, Debug, Default, PartialEq, Eq)]
pub enum Step {
    /// A target took what was left of a write.
    #[default]
    Land,
    /// A target took this many data phases of a write, and disconnected.
    Part(u8),
    /// A target or the header of a bridge gave this dword.
    Read(u32),
    /// A bridge posted a memory write.
    Accept,
    /// A bridge latched a delayed request.
    Latch,
    /// A bridge gave the completion of a delayed request.
    Take(Outcome),
    /// A target used a stall token and asked for a retry.
    Stall,
    /// Nobody claimed the transaction.
    MasterAbort,
    /// The target answered with Target-Abort.
    TargetAbort,
}

/// One event: a transaction on a bus, or the arrival of the oldest item in flight on a lane.
#[derive(Clone, Copy, Debug, PartialEq, Eq)]
pub enum Event {
    Act {
        bus: u8,
        by: By,
        op: OpId,
        step: Step,
        place: Place,
    },
    Arrive {
        lane: Lane,
        mark: Mark,
    },
}

/// An event with the stamp that orders the events of different buses.
#[derive(Clone, Copy, Debug, PartialEq, Eq)]
pub struct Stamped {
    pub stamp: u32,
    pub event: Event,
}

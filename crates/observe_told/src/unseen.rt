use pci_command::{List, OpId};

/// What was done that cannot be seen in the acts. Lines are named by their places in the log, from
/// 0.
#[derive(Clone, Copy, Debug, PartialEq, Eq)]
pub enum Note {
    /// The completion of the operation that this line made was discarded in the bridge to this bus.
    Discarded {
        bridge: u8,
        op: OpId,
        line: u32,
    },
    /// The bridge holds `posted` pieces of posted writes, and was given for `given`.
    Raised {
        bridge: u8,
        posted: u8,
        given: u8,
    },
    /// So many further dwords of a read were not looked at.
    NotLookedAt {
        op: OpId,
        count: u32,
    },
    /// A request that a master had begun at this line, and asked for so many times, did not end. It
    /// has no operation where nothing was done for it.
    NotEnded {
        op: Option<OpId>,
        line: u32,
        asked: u32,
    },
}

/// How many lines there are, acts, and Retries of delayed requests and posted writes that had no
/// effect.
#[derive(Clone, Copy, Debug, Default, PartialEq, Eq)]
pub struct Counts {
    pub lines: u32,
    pub acts: u32,
    pub fruitless: u32,
}

/// What cannot be seen in the acts.
#[derive(Debug, Drop)]
pub struct Unseen {
    pub notes: List<Note>,
    pub counts: Counts,
}

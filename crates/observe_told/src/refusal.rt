//! What is told of a log that is no run. Lines are named by their places in the log, from 0, and a
//! bridge by the bus to which it goes.
use crate::Log;
use board_model::Board;
use history_model::{Event, Step, Why};
use pci_command::{List, NoMemory, OpId, Outcome};
use std::alloc::{AllocError, AllocFailed};

/// A data phase of a posted write: the line that brought it, and its number there.
#[derive(Clone, Copy, Debug, Default, PartialEq, Eq)]
pub struct HeldPhase {
    pub line: u32,
    pub phase: u32,
}

/// Why a log names no acts.
#[derive(Clone, Copy, Debug, PartialEq, Eq)]
pub enum Unfound {
    /// O1: the bridge drives a data phase, by its number on the line, that it does not hold; and
    /// the oldest that it holds.
    NotHeld {
        line: u32,
        bridge: u8,
        phase: u32,
        oldest: Option<HeldPhase>,
    },
    /// O1: the bridge drives a request that nobody asks of it at that time.
    NotAsked {
        line: u32,
        bridge: u8,
    },
    /// O2: more operations or masters, or opening words, than a board may have.
    TooManyOperations {
        line: u32,
    },
    /// O3: a bridge would hold more than eight pieces of posted writes one way.
    TooManyPieces {
        line: u32,
    },
    /// O4: a run of the board that was found may have this many events, which are above 500,000.
    TooManyEvents {
        bound: u64,
    },
    /// O5: too many pairings of equal requests to try.
    TooManyPairings {
        line: u32,
    },
    /// The board that was found is no tree: a line writes a register of a bridge.
    NoTree,
    NoMemory,
}

impl From<NoMemory> for Unfound {
    fn from(_refused: NoMemory) -> Unfound {
        Unfound::NoMemory
    }
}

impl From<AllocError> for Unfound {
    fn from(_refused: AllocError) -> Unfound {
        Unfound::NoMemory
    }
}

impl<T: Drop> From<AllocFailed<T>> for Unfound {
    fn from(_refused: AllocFailed<T>) -> Unfound {
        Unfound::NoMemory
    }
}

/// An operation that stands on a lane, and the line that brought it there.
#[derive(Clone, Copy, Debug, Default, PartialEq, Eq)]
pub struct Brought {
    pub op: OpId,
    pub line: u32,
}

/// What names the reason why an act is refused.
#[derive(Clone, Copy, Debug, PartialEq, Eq)]
pub enum WhyNot {
    /// It went before this posted write.
    BehindWrite {
        bridge: u8,
        item: Brought,
    },
    /// It went before this one, the same request.
    BehindEqual {
        bridge: u8,
        item: Brought,
    },
    /// The bridge does not hold it yet: where it was asked for later, by which line first.
    NotAsked {
        bridge: u8,
        first: Option<u32>,
    },
    /// It left the bridge at this line.
    Left {
        bridge: u8,
        line: u32,
    },
    /// Another operation of its master is open.
    NotItsTurn,
    /// Its completion went before this posted write.
    CompletionBehind {
        bridge: u8,
        item: Brought,
    },
    /// Its completion has not come to the bridge.
    NotCome {
        bridge: u8,
    },
    /// The completion that there is was read at this line, for this operation, which asked at its.
    MadeFor {
        bridge: u8,
        read: u32,
        item: Brought,
    },
    /// There is no completion for it in the bridge.
    NoCompletion {
        bridge: u8,
    },
    /// Its completion is this one, made at this line.
    CompletionIs {
        outcome: Outcome,
        line: u32,
    },
    /// The bridge holds as many posted writes as it may.
    FullOfWrites {
        bridge: u8,
        posted: u8,
    },
    /// It holds as many delayed requests as it may.
    FullOfRequests {
        bridge: u8,
        delayed: u8,
    },
    /// The target holds this value there, which this line wrote last, where one did.
    TargetHolds {
        target: u16,
        value: u32,
        written: Option<u32>,
    },
    /// It is answered by this step.
    AnsweredBy {
        step: Step,
    },
}

/// An act that no order of the buses allows.
#[derive(Clone, Copy, Debug, PartialEq, Eq)]
pub struct Refused {
    pub line: u32,
    pub why: Why,
    pub reason: WhyNot,
}

/// All acts, the place of the line of each in the log, how many of them were taken, and why the
/// next was not.
#[derive(Debug, Drop)]
pub struct ActsTold {
    pub acts: List<Event>,
    pub lines: List<u32>,
    pub taken: usize,
    pub refused: Option<Refused>,
}

/// What a log tells that is refused: its acts, of which one is not allowed, or why it names none.
#[derive(Debug, Drop)]
pub enum Retold {
    Acts(ActsTold),
    Nothing(Unfound),
}

/// A log that is refused, the board that was found, and what it tells.
#[derive(Clone, Copy, Debug)]
pub struct RefusedLog<'a> {
    pub log: &'a Log,
    pub board: &'a Board,
    pub told: &'a Retold,
}

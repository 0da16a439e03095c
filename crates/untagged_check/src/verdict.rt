use history_model::Why;
use pci_command::{List, OpId};

/// What the events of a trace are on bridges that keep no local master.
#[derive(Debug, Drop)]
pub enum Untagged {
    /// No run: this event, from 1 on, is the first that is not allowed after those before it.
    NotRun { event: u32, why: Why },
    /// A run, and its reads that break freshness, in the order in which their masters ended them.
    Run { stale: List<Stale> },
}

/// A read that was told of a write, and got a word of it from a reading before the write had
/// landed.
#[derive(Clone, Copy, Debug, PartialEq, Eq)]
pub struct Stale {
    pub read: OpId,
    /// The first such write, by master, then by its place in the program.
    pub write: OpId,
    /// The number of the event of that reading, from 1 on.
    pub event: u32,
}

use history_model::Why;

/// What the events of a trace are.
#[derive(Clone, Copy, Debug, PartialEq, Eq)]
pub enum Verdict {
    /// A run to the end of all programs.
    Complete,
    /// A run that has not ended: some event can follow, and at most so many.
    Incomplete { left: u64 },
    /// No run: this event, from 1 on, is the first that is not allowed after those before it.
    NotRun { event: u32, why: Why },
}

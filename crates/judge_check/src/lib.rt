//! Whether the events of a trace are a run of its board, and whether that run is complete.
#![tactic(auto)]

mod judging;
mod remaining;
mod verdict;

pub use judging::check;
pub use verdict::Verdict;

//! A run that goes on to the end of all programs, by the next event of a fixed order each time.
//! Each event is judged, or found, and taken by the state that is kept of the run, in one pass.
#![tactic(auto)]

mod finishing;
mod staying;
mod unfinished;

pub use finishing::finish;
pub use staying::finished_runs_stay;
pub use unfinished::Unfinished;

//! `observe`: the run that a log tells of, or all acts of it, whether they are a run or not. How
//! they are found is not trusted: acts are judged as all that they put in flight arrives, and held
//! against the log, and what is printed of their run is read as it; a text of acts is read again,
//! judged, and held against the log.
#![tactic(auto)]

mod answer;
mod drafting;
mod holding;
mod reading;
mod telling;
mod writing;

pub use answer::{answer_acts, answer_observe, answer_observe_owned};
pub use drafting::{LogTold, tell};
pub use reading::{TreeLog, read_tree_log};

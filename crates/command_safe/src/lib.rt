//! The words on what a board's operations do in all runs: `safe` and `adverse`.
#![tactic(auto)]

pub mod adverse;
pub mod safe;

pub use adverse::{adverse_traces_are_complete, answer_adverse};
pub use safe::answer_safe;

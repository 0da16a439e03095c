//! The engine that works the buses of a board one after another, phase by phase: in each phase each
//! bus does one turn, and then all lanes are settled, so that what is sent in a phase arrives in
//! the next one. What all buses did is a complete run of the board, and so it is on threads
//! (`rings`).
#![tactic(auto)]

mod first;
mod merging;
mod phase;
mod rings;
mod settling;
mod steady;
mod threads;
mod whole;

pub(crate) use first::{all_above, all_workers};
pub(crate) use merging::merge_all;
pub use rings::threaded_run;
pub(crate) use settling::{Above, settle_all};
pub(crate) use steady::run_steady;
pub use threads::{Gate, NoGate};
pub use whole::steady_run;

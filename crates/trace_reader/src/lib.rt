//! A trace text is read as a board and the events of a history, or its first fault is told.
#![tactic(auto)]

mod events;
mod fault;
mod lines;
mod parts;
mod trace;

pub use fault::TraceFault;
pub use lines::{EventWord, Names, TraceLine, read_line};
pub use trace::read_trace;

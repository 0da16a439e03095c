//! A history of a board: its events, and what a run is. `machine_steps` computes what is defined
//! here of one step, `plain_replay` what is defined of a run.
#![tactic(auto)]

mod event;
pub mod facts;
mod item;
mod rule;
mod why;

pub use board_model::{Lane, Place};
pub use event::{By, Event, Mark, Stamped, Step};
pub use item::{Answer, Carried, Cause, Move, Moved, Slot};
pub use rule::Rule;
pub use why::Why;

//! The engine that gives each bus of a board a worker, phase by phase: in each phase each bus does
//! turns of its own, what it sends over a bridge may be received on the other bus in the same
//! phase, and then all lanes are settled. There are as many threads as buses, or one where phases
//! are too short for that. What all buses did is a complete run of the board, whatever the threads
//! do.
mod begin;
mod gate;
mod phase;
mod rounds;
mod tries;

pub use gate::{Gate, NoGate};
pub use rounds::run_rings;

//! The outline of a board: for each bus, from bus 0 down, the masters, targets and bridges on it,
//! with their ranges and windows from the first to the last address.
#![tactic(auto)]

mod agents;
mod bridges;
mod buses;
mod spans;

pub use buses::print_outline;

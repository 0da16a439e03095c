//! What the words of the program have in common: an input is read as a valid board, also one with
//! the masters of devices, or as a valid board and events of it, or is refused with the status that
//! tells its first fault.
#![tactic(auto)]

mod board;
mod devices;
mod protocol;
mod trace;

pub use board::{read_tree, tree_of};
pub use devices::read_devices;
pub use protocol::read_protocol;
pub use trace::{TreeTrace, read_tree_trace};

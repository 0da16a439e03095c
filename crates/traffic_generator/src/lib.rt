//! A board of any size from a number: a tree of four bridges, and three masters that write and read
//! across it by draws from that number. It is valid for each number of rounds: whatever is drawn
//! each operation is well formed, and the way of an operation to a target is the same for each
//! block of its range.
#![tactic(auto)]

mod agents;
mod draws;
mod generating;
mod laws;
mod programs;
mod rounds;

pub use generating::generate;
pub use laws::generated_boards_are_valid;
pub use rounds::Rounds;

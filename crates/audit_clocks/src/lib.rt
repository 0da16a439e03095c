//! What each master knows of all writes, by one number for each author: who was told of a write was
//! told of all that its author wrote before it, so what is known of an author is how many of the
//! operations of its program are. Beside it tables by operation and by dword, and what landed in
//! each dword, also along the programs of the authors.
#![tactic(auto)]

mod clocks;
mod known;
mod landed;
mod landings;
mod numbers;
mod op_table;
mod row;
mod word_table;

pub use clocks::Clocks;
pub use known::Known;
pub use landed::{Landed, Track};
pub use landings::Landings;
pub use numbers::Numbers;
pub use op_table::OpTable;
pub use row::ClockRow;
pub use word_table::WordTable;

//! The writes of a valid board, by the dwords that they name, and its polls; and tables of clocks:
//! how many operations of each master's program are known behind each poll. A table is kept as rows,
//! and what each operation comes after is a look at them. From the writes of a dword follows what
//! may be known at most behind a poll of it.
#![tactic(auto)]

mod gathered;
mod known;
mod list;
mod polls;
mod program;
mod row;
mod start;
mod writers;

pub use gathered::{Gathered, gather};
pub use known::ClockTable;
pub use list::polls_of;
pub use polls::{Polls, awaited_by, is_before};
pub use writers::{WordWrite, WordWrites, Writers, first_named};

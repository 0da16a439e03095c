//! A log text is read as a board and what was seen on its buses, a line a transaction, or its first
//! fault is told. And whether acts of a board are those of the lines of a log, each and all of them.
#![tactic(auto)]

mod acts;
mod asked;
mod board;
mod boards;
mod fault;
mod line;
mod lines;
mod parts;
mod plain;
mod reading;
mod row;
mod rows;
mod shown;
mod text;
mod told;

pub use fault::LogFault;
pub use text::{faulty_word, read_log, read_log_board};
pub use told::is_told;

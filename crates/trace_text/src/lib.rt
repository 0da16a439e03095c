//! The text of a trace: a board and the events of a history, line by line.
#![tactic(auto)]

mod digits;
mod events;
mod lines;
mod trace;
mod words;

pub use events::{master_name, print_operation, step_word, target_name};
pub use lines::has_line;
pub use trace::print_trace;
pub use words::{ByWord, LaneWord};

//! What a status says in words, behind its first line: which line of the input, which word of it, and
//! why. All of it is found by the program's own readers, from the input and the status alone. What is
//! said of a text stands in `message_texts`, why an event is not allowed in `run_reasons`.
#![tactic(auto)]

mod asked;
mod event;
mod log;
mod telling;

pub use asked::{Asked, asked_for};
pub use log::message_of_log;
pub use telling::message;

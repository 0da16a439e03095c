//! The lines of a board text, by their forms: the words of a line are read from left to right as a
//! statement, or give the first fault.
#![tactic(auto)]

mod bridges;
mod keyword;
mod kinds;
mod lines;
mod masters;
mod statement;
mod targets;
mod words;

pub use kinds::parts;
pub use lines::{first_line, has_words, statement_of, take_statement};
pub use masters::read_tail;
pub use statement::Statement;
pub use words::{Words, is_word};

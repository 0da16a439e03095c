//! The text of a board as lines, the lines as tokens, and a token as a number.
#![tactic(auto)]

mod numbers;
mod reader;
mod tokens;
mod words;

pub use numbers::{NumberFault, decimal, hex, value_of_digit};
pub use reader::{check_line, is_allowed, is_allowed_comment, next_line};
pub use tokens::{Token, tokens_of};
pub use words::{length_before_comment, next_word};

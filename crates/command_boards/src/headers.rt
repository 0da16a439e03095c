//! `headers`: what the program writes for the text of a board, or why it refuses it.
mod answer;

pub use answer::answer_headers;

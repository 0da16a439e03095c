//! Which part of a text its refusal is about: the lines that have the fault by themselves. They are
//! found by the program's own readers, from the text and the status alone.
mod cut;
mod leaving_out;
mod reading;

pub use cut::{SomeLines, board_part, without_lines, word_lines};
pub use leaving_out::smallest;
pub use reading::TOO_LONG;

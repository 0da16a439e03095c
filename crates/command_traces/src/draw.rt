//! `draw`: the page that the program writes for a trace text, or why it refuses it.
mod answer;
mod operation;
mod rows;
mod shown;

pub use answer::{answer_draw, answer_draw_operation};
pub use rows::{Rows, names_event, rows_of};

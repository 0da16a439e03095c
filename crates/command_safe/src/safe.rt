//! `safe`: what the program writes for the text of a board or of devices on one, of all its runs at
//! once, or why it refuses it.
mod answer;
mod counts;
mod text;

pub use answer::answer_safe;

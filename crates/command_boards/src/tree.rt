//! `tree`: the outline of the board whose text is read, or of the board that the text of devices
//! makes, or why the text is refused.
mod answer;

pub use answer::answer_tree;

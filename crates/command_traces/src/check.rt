//! `check`: what the program writes for a trace text, or why it refuses it.
mod answer;

pub use answer::answer_check;

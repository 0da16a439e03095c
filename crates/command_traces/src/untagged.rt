//! `untagged`: what the program writes for a trace text of a run on bridges that keep no local
//! master, or why it refuses it.
mod answer;
mod text;

pub use answer::answer_untagged;

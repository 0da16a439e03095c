//! `waves`: what the program writes for a trace text of a run, complete or not, or why it refuses
//! it.
mod answer;

pub use answer::answer_waves;

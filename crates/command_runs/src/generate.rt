//! `generate`: what the program writes for a number of rounds.
mod answer;
mod word;

pub use answer::answer_generate;
pub use word::names_rounds;
pub(crate) use word::rounds_of;

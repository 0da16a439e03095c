//! `combine`: what the program writes for the text of a board whose masters stand behind a host
//! bridge that joins memory writes, or why it refuses it.
mod answer;

pub use answer::answer_combine;

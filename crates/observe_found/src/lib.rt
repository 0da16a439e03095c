//! What a log tells: which Retry took a delayed request into a bridge, whose request each
//! transaction of a bridge is, what the programs of the masters were, and the acts of the lines.
#![tactic(auto)]

mod acts;
mod agents;
mod choices;
mod depths;
mod errands;
mod found;
mod ground;
mod latches;
mod pairing;
mod parts;
mod pieces;
mod programs;
mod slots;
mod streams;
mod trial;
mod words;

pub use found::{LogFound, find};
pub use ground::Times;

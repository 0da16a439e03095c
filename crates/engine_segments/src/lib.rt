//! The segments of a board before its first event: for each bus the bridges, masters and targets on
//! it, between the ends of its bridges' lanes.
#![tactic(auto)]

mod agents;
mod first;
mod order;
mod plain;
mod ports;
mod ring;

pub use first::segments;
pub use order::{buses, lanes_to};
pub use plain::plain_ends;
pub use ring::ring_ends;

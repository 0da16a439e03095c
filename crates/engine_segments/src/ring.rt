//! The ends of the lanes of a board over rings, where each bus is worked by a thread of its own.
mod ends;

pub use ends::ring_ends;

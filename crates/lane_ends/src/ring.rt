//! The ends of a bridge's lanes over two rings, where each bus is worked by a thread of its own:
//! what is sent in a phase may cross while both buses are being worked, and has crossed at its end.
mod inward;
mod lane;
mod outward;
mod ring_end;

pub use ring_end::{RingEnd, ring_pair};

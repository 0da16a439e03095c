//! The ends of a bridge's lanes: plain ones, where all buses are worked on one thread, and rings,
//! where each has its own. A plain end takes no memory, and what it sends crosses when the lane is
//! settled. A ring has 32 places: an item may cross while both buses are worked, each by its
//! thread; what finds no place crosses later, in order.
#![tactic(auto)]

mod plain;
pub mod ring;

pub use plain::{PlainEnd, got_in_order};
pub use ring::{RingEnd, ring_pair};

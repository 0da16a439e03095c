//! What is on the two lanes of a bridge after the events of a run, in tables that take no memory:
//! PCI-to-PCI Bridge Architecture Specification 1.1, chapter 5 (from memory; buffer management).
//! And what an item on them has left, in events.
#![tactic(auto)]

mod bridge_lanes;
mod lane_tables;
mod marks;
mod remaining;

pub use bridge_lanes::BridgeLanes;
pub use lane_tables::LaneTables;
pub use marks::mark_of_first;
pub use remaining::{Reach, behind_left, found_left, has_slot, posted_left, tries_left};

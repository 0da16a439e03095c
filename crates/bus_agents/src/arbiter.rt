//! The central arbiter of one bus (PCI Local Bus Specification 2.2, section 3.4, from memory): 32
//! request lines in a circle, of which the first that asks behind the last granted one is granted.
mod arbiter;

pub use arbiter::Arbiter;

//! What the devices of a machine ask for in their base address registers, and which of them a board
//! can have as targets, with which ranges.
#![tactic(auto)]

mod devices;
mod fate;
mod found;
mod functions;
mod ranges;

pub use devices::{claims_something, devices_of, is_placed};
pub use fate::{Device, DeviceFate, Judged, NoRange, RangeFate};
pub use found::{Flaw, FoundFunction, found_in};
pub use functions::why_of_bridge;
pub use ranges::{does_fit, registers_for, span_of};

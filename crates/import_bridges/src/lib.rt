//! A machine as `lspci` tells of it: the functions below one root, and which of its bridges and
//! their windows a board can have.
#![tactic(auto)]

mod bridges;
mod devices;
mod fate;
mod header;
mod machine;
mod windows;

pub use bridges::{bridge_fates, is_led_to, place_of, taken_among};
pub use devices::{DevicePlace, device_number};
pub use fate::{BridgeFate, Buses, NoBridge, NoWindow, TakenBridge, WindowFate};
pub use header::{byte_at, decodes, header_type, is_bridge, register_2, register_4};
pub use machine::{Machine, Root, first_root, machine_of};
pub use windows::{first_passing, is_reached, shares, windows_of};

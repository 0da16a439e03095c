//! The type 1 configuration header of a bridge, read: PCI-to-PCI Bridge Architecture Specification
//! 1.1, section 3.2 (from memory); what `encode` of `board_model` writes is read back.
//! `tools/checks/lspci-check` compares it with `lspci`.
#![tactic(auto)]

mod control;
mod fault;
mod reading;
mod round_trip;
mod windows;

pub use fault::HeaderFault;
pub use reading::{decode, window_between};
pub use round_trip::{encoding_is_read_back, read_back};
pub use windows::Windows;

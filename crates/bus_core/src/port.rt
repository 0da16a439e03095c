//! A bridge on one of its two buses: the half of it that is there, and which of its arrivals the
//! board discards or drops (PCI-to-PCI Bridge Architecture Specification 1.1, chapter 5, from
//! memory). A port stands for what is on the two lanes of its bridge, and each call says what it
//! does to them in the model.
mod port;

pub use port::{Arrival, Port, other_bridges_leave_ports};

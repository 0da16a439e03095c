//! The masters of one bus: whose operation is next, and how much of each write went through already
//! (PCI Local Bus Specification 2.2, section 3.3.3, from memory). A master repeats one operation
//! until it ends; what others do leaves its turn as it is.
#![tactic(auto)]

mod arbiter;
mod marks;
mod master;
mod through;

pub use arbiter::Arbiter;
pub use marks::LaneMarks;
pub use master::{MasterState, others_leave_turns};
pub use through::{Through, other_events_leave_counts};

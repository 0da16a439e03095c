//! The targets of one bus, each with the words that it keeps: what it answers to an access, and
//! what that changes (PCI Local Bus Specification 2.2, sections 3.3.3.2 and 6.2.5, from memory). A
//! target stands for whatever happened at it so far; what happens elsewhere leaves it as it is.
#![tactic(auto)]

mod access;
mod reads;
mod target;
mod words;

pub use access::Access;
pub use target::{TargetState, others_leave_targets};
pub use words::TargetWords;

//! The commands of the PCI Local Bus Specification 2.2, section 3.1.1 (from memory), the requests
//! that carry them, and the small lists that every other crate speaks of.
#![tactic(auto)]

mod command;
mod list;
mod no_memory;
mod op_id;
mod phases;
mod request;

pub use command::{Command, Kind, Space};
pub use list::List;
pub use no_memory::NoMemory;
pub use op_id::{OpId, Outcome};
pub use phases::{Phase, Phases};
pub use request::{Request, address_phases, same_op, same_request};

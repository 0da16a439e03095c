//! Combining and byte merging of the memory writes of each program, as a host bridge does it in
//! front of a bus (PCI Local Bus 2.2, section 3.2.6, from memory). That a run of the joined board
//! has the events of a run of the first is not claimed.
#![tactic(auto)]

mod combining;
mod copies;
mod joining;
mod laws;
mod merge;

pub use combining::combine;
pub(crate) use joining::join;
pub use laws::{combining_keeps, joined_brings_the_same};

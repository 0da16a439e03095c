//! The delayed completions that one half of a bridge holds until their master repeats its request
//! (PCI Local Bus Specification 2.2, section 3.3.3.3, from memory).
mod done_table;

pub use done_table::{Done, DoneTable};

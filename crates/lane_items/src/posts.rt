//! The posted memory writes that one half of a bridge holds, in the order in which they came
//! (PCI Local Bus Specification 2.2, section 3.2.5, and appendix E; from memory).
mod posted_table;

pub use posted_table::{Post, PostedTable};

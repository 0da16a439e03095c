//! Runs of a board by a schedule that holds one write back: arrivals first, then the initiators in
//! turn, where the write's master is passed over until a read has ended; and which read and which
//! write a word names.
#![tactic(auto)]

mod operation;
mod ring;
mod run;
mod turns;

pub use operation::{names_operation, read_of, write_of};
pub use run::{Pair, adverse_run};

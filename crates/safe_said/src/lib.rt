//! What is said of each operation of a board by its table of clocks: what a read returns in every
//! run, or which write makes it unsafe; which writes are lost; which polls nothing meets.
#![tactic(auto)]

mod landing;
mod looks;
mod lost;
mod members;
mod open;
mod ops;
mod order;
mod polls;
mod reads;
mod runs;
mod values;
mod verdict;
mod walk;

pub use verdict::{OpSaid, Said};
pub use walk::said_of_all;

//! The largest consistent table of clocks of a valid board. To begin with everything is known
//! behind each poll. From there the table falls, poll by poll, to what may be known at most, until
//! no number falls.
#![tactic(auto)]

mod again;
mod fall;
mod fronts;
mod largest;
mod order;

pub use largest::{TableMade, largest_table};

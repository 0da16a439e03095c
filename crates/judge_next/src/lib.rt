//! The next event of a run, looked for only where something may have changed: beside the state that
//! is kept of the run stand the lines of each bus, which buses are known to be quiet, and over which
//! bridges nothing is in flight.
#![tactic(auto)]

mod acts;
mod course;
mod flights;
mod lines;
mod quiet;

pub use course::Course;
pub use lines::Lines;

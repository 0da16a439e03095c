//! A trace whose arrivals are left away, and put where they are earliest: behind each act all that
//! is in flight arrives. Nobody who taps buses sees an arrival, and none need be seen: where any
//! placing of them makes a run, this one does.
#![tactic(auto)]

mod arriving;
mod filling;
mod unfilled;

pub use arriving::arrive;
pub use filling::fill;
pub use unfilled::Unfilled;

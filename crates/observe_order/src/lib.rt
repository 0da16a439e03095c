//! The acts that a log tells, in an order in which the machine allows them, and the run that they
//! make with all arrivals as early as can be; or the first that it does not allow, and why. And what
//! the log shows and no event of the run, as comments.
#![tactic(auto)]

mod blame;
mod going;
mod judging;
mod notes;
mod ordering;
mod reasons;

pub use judging::{ActsVerdict, verdict_of};
pub use notes::comments;
pub use ordering::{Ordered, order};

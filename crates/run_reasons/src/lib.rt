//! Why the first event of a trace that is not allowed is not, and what is left of a run that has
//! not ended: sentences for who reads them, of what is so after the events before it. Nothing is
//! claimed of what they say.
#![tactic(auto)]

mod cause;
mod filling;
mod lane;
mod left;
mod past;
mod reason;
mod retry;
mod scene;
mod seen;
mod told;
mod words;

pub use reason::Reason;
pub use seen::reason_of_log;
pub use told::{Findings, reasons, reasons_filled};

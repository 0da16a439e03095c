//! What landed in each dword of a run, noted event by event: which write brought each data phase,
//! how much of each write went through, which landed whole and when, and what those tell of whom
//! their masters knew. It speaks of any list of events.
#![tactic(auto)]

mod landed;
mod landings;
mod told;

pub use landed::{gone_of, lands, record_parted, whole_landings};
pub use landings::DwordLandings;

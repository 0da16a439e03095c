//! The journeys of the items of a run, each over one lane: at each moment of the run each lane has
//! in them what it has in the machine, in the same order.
#![tactic(auto)]

mod follow;
mod laws;
mod tracks;
mod travel;

pub use follow::journeys_of;
pub use laws::journeys_show_runs;

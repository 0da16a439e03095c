//! The report of a run: how large its board is, how long it is, and how many events of each kind
//! there were on each bus. The way counts of a board (`way_counts`) are those of its complete
//! runs, where it has no stalls, bursts in parts, polls, discards and drops (`IsSteady`), whoever
//! made the run.
#![tactic(auto)]

mod lapses;
mod lines;
mod sizes;
mod sums;
mod tallies;
mod text;
pub mod way_counts;

pub use sums::counts_add_up;
pub use text::{report, whole_report};
pub use way_counts::{complete_runs_have_the_way_counts, complete_runs_weigh_their_ways};

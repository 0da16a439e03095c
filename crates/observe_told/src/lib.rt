//! A log of what was seen on the buses, a line a transaction, its acts and the run that they make,
//! and what is said of one that is no run.
#![tactic(auto)]

mod bus_lines;
mod heads;
mod lane_lists;
mod maybe;
mod refusal;
mod seen;
mod seen_act;
mod unseen;
mod woven;

pub use bus_lines::{BusLines, BusPlaces, bump};
pub use heads::{Candidate, Heads};
pub use lane_lists::LaneLists;
pub use maybe::{MaybeOp, MaybePlace};
pub use refusal::{ActsTold, Brought, HeldPhase, Refused, RefusedLog, Retold, Unfound, WhyNot};
pub use seen::{Addressed, Ending, LineWord, Log, Seen, Who};
pub use seen_act::{LineActs, SeenAct};
pub use unseen::{Counts, Note, Unseen};
pub use woven::{Strand, Woven};

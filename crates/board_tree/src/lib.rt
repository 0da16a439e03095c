//! The valid tree of buses: each address on a bus has one owner, every way ends, and a run has at
//! most 500,000 events. PCI-to-PCI Bridge Architecture Specification 1.1, chapters 3 and 4 (from memory).
#![tactic(auto)]

mod bound;
mod chains;
mod claims;
mod costs;
mod refusal;
mod sites;
mod tree;
mod ways;

pub use bound::pieces_by;
pub use claims::claim_with;
pub use costs::{cost_of_program, cost_of_try, longest_way};
pub use refusal::TreeRefusal;
pub use sites::Sites;
pub use tree::{Tree, validate};
pub use ways::{Route, route_by, route_of};

//! The text of the audit of a run: for each read that ended with a value of its target, and whose
//! master knew of a write of that word before, a line that names the last such write to land and
//! the chain of operations by which the master came to know of it; then how many lines there are.
//! Each event is noted once, and what is noted stands for the run (`StandsFor`); writes and chains
//! are found by search along the programs of the authors (`Searchable`).
#![tactic(auto)]

mod audit;
mod chains;
mod ends;
mod findings;
mod found;
mod ledger;
mod lines;
mod readings;
mod search;

pub use audit::audit_text;
pub use findings::findings_of;
pub use found::Found;
pub use lines::print_found;

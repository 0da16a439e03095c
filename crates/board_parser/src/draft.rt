//! What the lines of a board text add up to: each statement is added to a draft of the board, or is
//! refused by its first fault.
mod add;
mod at_fault;
mod bridges;
mod counts;
mod details;
mod draft;
mod fault;
mod lists;
mod masters;
mod plans;
mod sheet;
mod targets;

pub use at_fault::word_at_fault;
pub use draft::{AgentPlace, Draft};
pub use fault::AddFault;
pub use sheet::Sheet;

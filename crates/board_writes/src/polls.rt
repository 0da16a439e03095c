//! What is kept of the polls of a board once: what each waits for, and whether it is firm; and what
//! may be known behind each by a table.
mod awaited;
mod kept;
mod looks;
mod met;
mod polls;
mod stays;

pub use awaited::awaited_by;
pub(crate) use awaited::{Awaited, enabled};
pub use looks::is_before;
pub use polls::Polls;

//! The state that a run leaves: what judging and taking one more event needs of all events before.
//! Each step looks only at what its event touches, and takes no memory.
#![tactic(auto)]

mod gone;
mod kept;
mod lanes;
mod table;
mod taking;
mod tokens;
mod turns;
mod words;

pub use kept::Kept;
pub use taking::{first_refused, take_all};

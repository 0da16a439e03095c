//! A board text is read as a board, or its first fault is told with its line. A line adds to a
//! draft what `add` defines, or is refused by its first fault, in the order of `docs/formats.md`.
//! At which word of the line it has that fault, `word_at_fault` tells.
#![tactic(auto)]

pub mod draft;
mod fault;
mod laws;
mod line;
mod text;

pub use draft::{AddFault, AgentPlace, Draft, Sheet, word_at_fault};
pub use fault::ParseFault;
pub use laws::read_is_well_formed;
pub use text::{parse, parse_sheet};

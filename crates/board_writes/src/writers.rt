//! Of each dword of a board the writes that bring it a data phase.
mod list;
mod lists;
mod named;
mod raising;
mod run;
mod stretches;
mod table;
mod words;
mod write;

pub use named::first_named;
pub(crate) use run::Run;
pub(crate) use stretches::{Stretches, count_below, is_behind, stretches_of};
pub use table::Writers;
pub use write::{WordWrite, WordWrites};

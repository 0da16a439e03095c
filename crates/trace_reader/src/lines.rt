//! The lines of a trace: each is read only as it is printed, as an event of the board or the end,
//! or gives its first fault.
mod cut;
mod event;
mod kind;
mod line;
mod names;
mod operation;
mod scan;
mod words;

pub use kind::EventWord;
pub(crate) use line::read_words;
pub use line::{TraceLine, read_line};
pub use names::Names;
pub(crate) use scan::scan_line;

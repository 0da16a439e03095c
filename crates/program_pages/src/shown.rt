//! Lines for a terminal: of printing characters alone, each of at most 120 columns, and lines of a
//! file with a caret below the place that is meant.
mod lines;
mod teller;

pub use lines::Message;
pub use teller::Teller;

//! The program as one call, from its words, a source and a sink to a status.
#![tactic(auto)]

mod answering;
mod program;
mod words;

pub use command_runs::{Gate, NoGate};
pub use program::pcitree;
pub use program_status::{BoardFault, Status};
pub use program_words::Called;
pub use words::{file_word, form_of, input_limit};

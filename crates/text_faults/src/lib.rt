//! What may be wrong with a text that the program reads, one enum for each kind of text, with the
//! number by which each fault is printed; and what a call answers that may also want memory.
#![tactic(auto)]

mod at_line;
mod board_line;
mod device;
mod log_line;
mod lspci;
mod or_no_memory;
mod trace_line;
mod tree;

pub use at_line::AtLine;
pub use board_line::{Family, LineFault};
pub use device::DeviceFault;
pub use log_line::LogLineFault;
pub use lspci::LspciFault;
pub use or_no_memory::OrNoMemory;
pub use trace_line::TraceLineFault;
pub use tree::TreeFault;

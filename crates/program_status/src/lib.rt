//! How a call of the program ends: its status, the number that the process ends with, and the line
//! that it prints; and what an input is answered with.
#![tactic(auto)]

mod answered;
mod counts;
mod log;
mod status;

pub use answered::Answered;
pub use counts::SafeCounts;
pub use log::{LogExcess, LogRefusal};
pub use status::{BoardFault, Status};

//! Whether the masters of a board are apart: no lane of it ever takes one delayed request from two
//! of them, so that no completion of one can be taken by the other, and bridges that keep no local
//! master have the same runs.
#![tactic(auto)]

mod kept;
mod lines;
mod masters;
mod meet;

pub use lines::print_apart;
pub use masters::apart;

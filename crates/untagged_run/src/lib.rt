//! Runs on bridges that keep no local master: whether these events are one, and what each read got,
//! which may be what the request of another master read. PCI-to-PCI Bridge Architecture
//! Specification 1.1, chapter 5, Delayed Transactions (from memory).
#![tactic(auto)]

mod course;
mod got;
mod made;
mod origins;
pub mod told;

pub use course::follow;
pub use got::{Followed, Got, got_at};
pub use told::Knowers;

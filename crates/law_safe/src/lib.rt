//! What reads return in every run of every valid board, from the programs of the board alone
//! (`safe`), and what that rests on: which operations come before which (`before`), the order in
//! which writes land (`writes`), what no run does (`vain`), and that the tables of clocks, by which
//! all this is said, have a greater one for each two (`tables`). Which tables are consistent is
//! told by tests over the operations of the board (`largest`), and what the largest one says of
//! each operation is so in every run (`said`); so is what is said of operations that reach no word,
//! and writes that have one land (`lost`). Each law is the contract of a function that does
//! nothing, over the definitions of `safe_model`.
#![tactic(auto)]

pub mod before;
pub mod largest;
pub mod lost;
pub mod safe;
pub mod said;
pub mod tables;
pub mod vain;
pub mod writes;

pub use before::{after_is_not_seen, before_is_told};
pub use largest::consistent_by_tests;
pub use lost::{ended_writes_land, lost_never_lands, nowhere_never_reads};
pub use safe::safe_reads_return;
pub use said::{said_safe_returns, said_vain_is_not_met, unreached_is_never_done};
pub use tables::greater_is_consistent;
pub use vain::{unreached_has_no_event, vain_poll_is_not_met};
pub use writes::writes_in_order;

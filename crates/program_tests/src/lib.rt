//! Tests of the whole call on ports that fail, and of its threads; and what is left of its answers
//! over ports that never fail.
#![tactic(auto)]

#[cfg(test)]
mod calls;
#[cfg(test)]
mod fault_tests;
mod surely;
#[cfg(test)]
mod thread_tests;

pub use surely::pcitree_surely;

//! The words that write a complete run: `run`, `finish`, `devices`, `generate`.
#![tactic(auto)]

pub mod devices;
pub mod finish;
pub mod generate;
mod run;

pub use devices::{answer_devices, written_devices_are_complete};
pub use finish::{answer_finish, finished_traces_are_complete};
pub use generate::{answer_generate, names_rounds};
pub use run::{Gate, NoGate, answer_run, answer_run_steady, written_runs_are_complete};

//! The board text of a machine: its bridges with their windows, a target for each device that
//! claims addresses, and for all that a board cannot have a comment with the reason. And whether a
//! board is that of a machine, which is judged by itself.
#![tactic(auto)]

mod bridges;
mod counts;
mod devices;
mod holds;
mod import;
mod notes;
mod text;

pub use holds::is_machine;
pub use import::import_board;

//! The words that read a trace: `check`, `audit`, `report`, `untagged`, `waves`, `draw`, `fill`.
#![tactic(auto)]

mod audit;
pub mod check;
pub mod draw;
pub mod fill;
mod report;
pub mod run;
pub mod untagged;
mod waves;

pub use audit::answer_audit;
pub use check::answer_check;
pub use draw::{Rows, answer_draw, answer_draw_operation, names_event, rows_of};
pub use fill::{answer_fill, filled_traces_are_runs};
pub use report::answer_report;
pub use untagged::answer_untagged;
pub use waves::answer_waves;

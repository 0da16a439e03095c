//! What is said of a fault in place of the sentence of its code: one text for each case, which is
//! found by the fault and its line alone. Nothing is claimed of what a text says.
mod board_lines;
mod device_lines;
mod forms;
mod limits;
mod operations;
mod places;
mod sentences;
mod text;
mod trace_lines;
mod wanted;

pub use board_lines::{Case, is_wide, text_of_line};
pub use device_lines::text_of_device;
pub use limits::bus_not_there;
pub use operations::{master_of, op_at, operation_text, operations_of};
pub use text::Text;
pub use trace_lines::{Piece, misread_text, no_events_text, no_trace_text, unreadable_text};

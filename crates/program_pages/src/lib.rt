//! What each code that the program tells of a fault means: one page for each, by which `explain`
//! and the messages on standard error are printed.
#![tactic(auto)]

mod codes;
mod device_pages;
mod fault;
mod line_pages;
mod lines;
mod log_pages;
mod machine_pages;
mod order;
mod page;
mod shown;
mod spot;
mod texts;
mod trace_pages;
mod tree_pages;

pub use codes::Codes;
pub use device_pages::DEVICE_PAGES;
pub use fault::{Fault, sentence_of};
pub use line_pages::LINE_PAGES;
pub use lines::{behind, find_line, line_at};
pub use log_pages::LOG_PAGES;
pub use machine_pages::MACHINE_PAGES;
pub use page::{Page, explain};
pub use shown::{Message, Teller};
pub use spot::{Spot, named_spot, place_of};
pub use texts::{
    Case, Piece, Text, bus_not_there, is_wide, master_of, misread_text, no_events_text,
    no_trace_text, op_at, operation_text, operations_of, text_of_device, text_of_line,
    unreadable_text,
};
pub use trace_pages::TRACE_PAGES;
pub use tree_pages::TREE_PAGES;

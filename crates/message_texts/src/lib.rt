//! What a message says of a text that is refused: which line of it, which word, and why; and what
//! it says of a length or of a port. All of it is found by the program's own readers. Nothing is
//! claimed of what a sentence says.
#![tactic(auto)]

mod board;
mod length;
mod log;
mod machine;
mod notes;
mod piece;
mod ports;
mod refused;
mod trace;
mod unclear;
mod unshown;

pub use board::tell_board;
pub use length::{MOST_DRAWN, limit_text};
pub use log::{message_of_bad_log, point_at_command, tell_seen};
pub use machine::tell_machine_line;
pub use notes::note;
pub use piece::place_of_piece;
pub use ports::{unread, unwritten};
pub use refused::TOO_LONG;
pub use trace::tell_trace_line;
pub use unshown::not_shown;

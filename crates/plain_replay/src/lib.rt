//! The plain program that computes what a run is, by replay of the events before and without
//! memory: who presents, what is answered, which event is allowed, which comes next and how many
//! can follow. No word of the program calls it: `judge_state` keeps the same in one pass. It is for
//! the gate alone, so that its contracts, tests and edits are kept.
#![tactic(auto)]

mod acts;
mod allowing;
mod answers;
mod arrivals;
mod carried;
mod completing;
mod first_arrivals;
mod lanes;
mod next;
mod planned;
mod presenting;
mod programs;
mod progress;
mod turns;
mod waiting;
mod words;

pub use allowing::allowed;
pub use answers::answer;
pub use arrivals::next_mark;
pub use completing::complete;
pub use lanes::lanes_after_events;
pub use next::next_event;
pub use presenting::wants;
pub use progress::left;
pub use turns::turn_of;
pub use words::{merged_at, stalls_used, through, value_landed, value_merged};

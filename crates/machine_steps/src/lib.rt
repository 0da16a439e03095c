//! The machine as code, without its history: what is presented, what is answered, how a step ends
//! an operation, which event is allowed. No function sees a list of events or a table of lanes.
//! Rules of the PCI-to-PCI Bridge Architecture Specification 1.1, chapter 5, and of the PCI Local
//! Bus Specification 2.2, sections 3.2 and 3.3 (from memory).
#![tactic(auto)]

mod acts;
mod answers;
mod counts;
mod endings;
mod order;
mod presented;
mod standing;
mod turns;
mod words;

pub use acts::{act_given, arrival_of, bus_of, ends_on};
pub use answers::{
    address_left, answer_allows, arrival_allowed, completion_answer, header_answer, latch_answer,
    nobody, posted_answer, write_step,
};
pub use counts::PhaseCounts;
pub use endings::{ended_op, lane_outcome, master_outcome};
pub use order::{completion_kind, may_go, request_kind};
pub use presented::{Presented, is_write, own_slot, reads};
pub use standing::{is_done_for, is_of, place_of_completion, place_of_request};
pub use turns::{first_turn, follows, is_on, stands_after, turn_after};
pub use words::{
    brought_by, dword_address, left_of, mask_of, merge_at, opens_as, value_at, word_read,
};

//! A board: the tree of buses with its bridges, targets and masters, as its text names them, who
//! claims a request on a bus, and the registers that configuration reads. Its form, claims, ways
//! and validity are pages of `specs/`.
#![tactic(auto)]

mod agents;
mod board;
mod bridge;
mod buses;
pub mod claims;
mod device;
mod encoding;
mod fits;
pub mod form_laws;
mod limits;
mod name;
mod op;
mod registers;
mod requests;
mod windows;
mod word;

pub use agents::{Master, Opening, Range, Target};
pub use board::{Board, Planned};
pub use bridge::{Bridge, Lane, Place, Window};
pub use buses::{bridge_to, end_of, has_bridge_to, is_bus, primary_of};
pub use claims::{bridge_holds, claim, claim_in_space, is_in_ranges};
pub use device::{merge, opening, write_mask};
pub use encoding::encode;
pub use fits::board_fits;
pub use form_laws::{
    claims_never_turn_back, one_claimant, parts_are_named, ways_end, well_formed_is_named,
};
pub use limits::{
    MOST_AGENTS, MOST_BRIDGES, MOST_CHILDREN, MOST_DELAYED, MOST_DWORDS, MOST_IN_FLIGHT,
    MOST_OFFERS, MOST_OPENINGS, MOST_OPS, MOST_PLANS, MOST_PORTS, MOST_POSTED, MOST_STANDING,
    MOST_TRIES, MOST_WAITING, REQUEST_LINES, ROOM_OF_A_TURN, limits_fit,
};
pub use name::Name;
pub use op::{Op, Want};
pub use registers::{registers_fit, registers_of};
pub use requests::{is_posted, op_of, request_of, request_on, tries_of};
pub use windows::window_holds;
pub use word::Word;

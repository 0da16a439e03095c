//! What an event does to the lanes, as moves: of who follows items over the lanes, as a picture
//! does, each goes by these and not by rules of its own.
#![tactic(auto)]

mod like;
mod moves;

pub use like::is_like;
pub use moves::moves_in;

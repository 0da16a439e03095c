//! Half a bridge: its face on one bus, where it answers what others present, presents what came
//! over from the other bus, and takes in what comes (PCI-to-PCI Bridge Architecture Specification
//! 1.1, chapter 5, from memory). Each call says what it does by the tables that the half keeps, and
//! what that is in the model, wherever the half stands for the two lanes of the bridge, if its
//! items carry operations of their kind (`CanStandThere`).
#![tactic(auto)]

mod face;
mod offer;
mod reply;

pub use face::Face;
pub use offer::Offer;
pub use reply::Reply;

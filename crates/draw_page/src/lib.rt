//! The page of a picture of a run, in HTML with inline SVG.
#![tactic(auto)]

mod known;
mod layers;
mod page;
pub mod strips;

pub use page::drawn_page;

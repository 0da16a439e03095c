//! What goes over the two lanes of a bridge, from one of its buses to the other, what the end of a
//! lane does on its bus, and the tables of what stands in one half of a bridge.
#![tactic(auto)]

pub mod completions;
mod item;
mod lane_end;
pub mod posts;
pub mod requests;

pub use completions::{Done, DoneTable};
pub use item::Item;
pub use lane_end::LaneEnd;
pub use posts::{Post, PostedTable};
pub use requests::{Ask, AskTable, SlotEntry, SlotTable};

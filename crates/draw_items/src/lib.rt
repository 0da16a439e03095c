//! What a trace tells of what travels: the items on the lanes, the tries of polls, and the waiting
//! of masters; where what a board has stands in a picture; and the fixed texts of its page.
#![tactic(auto)]

mod columns;
mod journey;
mod style;
mod touched;
mod tries;
mod waits;

pub use columns::{
    Band, Column, ColumnLine, Columns, Most, columns_of, most_of, print_name, product, sum,
};
pub use journey::{Journey, can_stand, lane_back};
pub use style::{print_key, print_style};
pub use touched::{completion_at, item_of, named_by, near_of, taken_by};
pub use tries::{Tries, tries_of};
pub use waits::{Wait, waits_of};

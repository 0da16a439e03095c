//! The rows of a picture of a run, one for each event, and where the list of events beside them
//! stands; what stands behind them; and the elements of the picture, layer by layer: of each row,
//! of each item, of each operation that a master presents, and of each line of the audit.
#![tactic(auto)]

mod canvas;
mod element;
mod frame;
mod heads;
mod keys;
mod lists;
mod row;
mod shapes;
mod width;

pub use canvas::Canvas;
pub use element::Element;
pub use frame::{Frame, frame_of};
pub use heads::{print_names, print_sheet};
pub use row::Row;
pub use shapes::{
    add_act, add_act_rim, add_ahead_rim, add_bracket, add_item, add_item_rim, add_key, add_row,
    add_wait,
};
pub use width::width_of;

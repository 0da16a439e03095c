//! The elements of a picture of a run, as text: events with what is noted behind them, items on
//! lanes, and acts.
#![tactic(auto)]

mod acts;
mod height;
mod items;
mod labels;
mod refused;
mod words;

pub use acts::{Act, ActLine, ActRow, print_act, print_act_rim, print_head};
pub use height::{Height, print_circle, row_middle};
pub use items::{DrawnRoute, print_item_open, print_item_rim, print_item_way, print_title};
pub use labels::{print_event, print_note};
pub use refused::{print_refused, refused_place};
pub use words::faint;

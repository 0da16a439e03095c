use board_model::Board;
use draw_items::{Journey, Tries};
use draw_told::Told;
use history_model::Event;

/// What is known of the events of a picture that are allowed: what travels by them, which tries of
/// polls were fruitless, and what the lines of their audit tell.
#[derive(Clone, Copy)]
pub(crate) struct Known<'a> {
    pub(crate) board: &'a Board,
    pub(crate) events: &'a [Event],
    pub(crate) journeys: &'a [Journey],
    pub(crate) tries: &'a Tries,
    pub(crate) told: &'a Told,
}

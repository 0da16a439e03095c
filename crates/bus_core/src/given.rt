use history_model::{Answer, Event};
use lane_items::Item;

/// An item that is to be sent at the port of this place.
#[derive(Clone, Copy, Debug, PartialEq, Eq)]
pub struct Sent {
    pub place: usize,
    pub item: Item,
}

/// What an operation is answered, and what the one who claims it sends over a bridge.
#[derive(Clone, Copy, Debug, PartialEq, Eq)]
pub struct Given {
    pub answer: Answer,
    pub over: Option<Sent>,
}

/// An act of the bus, what the one who claims sends over a bridge, and what goes back over the
/// bridge of the lane that presented the operation.
#[derive(Clone, Copy, Debug, PartialEq, Eq)]
pub struct Acted {
    pub event: Event,
    pub over: Option<Sent>,
    pub back: Option<Sent>,
}

/// What comes of an initiator on the bus.
#[derive(Clone, Copy, Debug, PartialEq, Eq)]
pub enum Served {
    /// It presents nothing.
    Nothing,
    /// A Retry: nothing happens.
    Retried,
    /// A lane presents it, and the lane back of the same bridge claims it: nothing happens.
    TurnsBack,
    /// An event.
    Did(Acted),
}

use draw_items::Journey;
use history_model::Event;

/// An event, and what is to be known of it.
#[derive(Clone, Copy, Debug)]
pub struct Row {
    /// Its number, from 1 on.
    pub n: u32,
    pub event: Event,
    /// What arrives, or what a lane presents; of one that is not allowed what it names.
    pub item: Option<Journey>,
    /// The completion that is taken.
    pub taken: Option<Journey>,
    /// Whether it is a landing or a read of which a line of the audit tells.
    pub key: bool,
    /// Whether its operation is in the chain of a line; that of an act.
    pub loud: bool,
    /// Whether its operation is a fruitless try; that of an act, or of what arrives.
    pub pale: bool,
    /// Whether it is not allowed after those before it.
    pub refused: bool,
    /// How wide its line and its note are.
    pub width: u64,
}

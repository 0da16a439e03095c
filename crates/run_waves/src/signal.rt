use board_model::Lane;

/// What is shown of the event that happens on a bus.
#[derive(Clone, Copy, Debug, PartialEq, Eq)]
pub enum BusPart {
    /// Its kind.
    Event,
    /// Who presents it, or the lane of an arrival.
    By,
    /// The operation.
    Op,
    /// Who claims it, or what arrives.
    To,
    /// The value that is read.
    Value,
}

/// What is counted of a lane.
#[derive(Clone, Copy, Debug, PartialEq, Eq)]
pub enum LaneCount {
    /// Posted writes that are owed where it begins.
    Owed,
    /// Slots that are held where it begins.
    Held,
    /// Items in flight.
    Flight,
    /// Posted writes that stand where it ends.
    Posts,
    /// Delayed requests that stand where it ends.
    Requests,
    /// Completions that stand where it ends.
    Completions,
}

/// What is shown of a run, over time.
#[derive(Clone, Copy, Debug, PartialEq, Eq)]
pub enum Signal {
    /// What happens on a bus.
    Bus { bus: u8, part: BusPart },
    /// A count of a lane.
    Lane { lane: Lane, count: LaneCount },
    /// The place of the operation that is a master's turn.
    Index { master: u16 },
    /// The try of it.
    Try { master: u16 },
    /// Whether the master presented it before.
    Waits { master: u16 },
    /// The stall tokens that are left of a target.
    Stall { target: u16 },
}

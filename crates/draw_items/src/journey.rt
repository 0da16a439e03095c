ghost use Rattle.std.specs.Prelude.{◌≡◌};
ghost use Rattle.board_model.specs.Ways.{lane_back};
ghost use Rattle.history_model.specs.Lanes.{is_of};
ghost use Rattle.draw_items.specs.Journeys.{can_stand, has_come, has_left, has_stood};
ghost use Rattle.draw_items.specs.Journeys.{flies, stands, stands_at};

use board_model::Lane;
use history_model::Carried;
use pci_command::{OpId, same_op};

/// What one item did on a lane. Events are numbered from 1 on; 0 says: not in these events.
#[derive(Clone, Copy, Debug, PartialEq, Eq)]
pub struct Journey {
    pub carried: Carried,
    /// The operation; of a credit, and of the word that a request was dropped, that of the item
    /// that they answer.
    pub op: OpId,
    pub lane: Lane,
    /// The event that sent it.
    pub sent: u32,
    /// The event with which it came to the end of the lane.
    pub came: u32,
    /// The event with which it left.
    pub left: u32,
    /// Whether it was discarded or dropped as it came.
    pub marked: bool,
    /// Its own number among those that stand with it where the lane ends.
    pub track: usize,
}

impl Journey {
    /// Whether it stood where its lane ends.
    pub fn has_stood(&self) -> bool
        ensures { result ≡ has_stood self.now }
    {
        self.came > 0 && (!self.marked && can_stand(self.carried))
    }

    /// Whether it is in flight on the lane.
    pub fn flies(&self, lane: Lane) -> bool
        ensures { result ≡ flies lane self.now }
    {
        self.lane == lane && self.came == 0
    }

    /// Whether it stands where the lane ends.
    pub fn stands(&self, lane: Lane) -> bool
        ensures { result ≡ stands lane self.now }
    {
        self.lane == lane
            && (self.came > 0 && (!self.marked && (can_stand(self.carried) && self.left == 0)))
    }

    /// Whether it had come after the first n events.
    pub(crate) fn has_come(&self, n: u32) -> bool
        ensures { result ≡ has_come n self.now }
    {
        self.came > 0 && self.came <= n
    }

    /// Whether it had left after the first n events.
    pub(crate) fn has_left(&self, n: u32) -> bool
        ensures { result ≡ has_left n self.now }
    {
        self.left > 0 && self.left <= n
    }

    /// Whether it stood where the lane ends after the first n events.
    pub(crate) fn stood(&self, n: u32, lane: Lane) -> bool
        ensures { result ≡ stands_at n lane self.now }
    {
        self.lane == lane
            && (self.has_come(n)
                && (!self.marked && (can_stand(self.carried) && !self.has_left(n))))
    }
}

/// Whether such an item stands after a plain arrival.
pub fn can_stand(item: Carried) -> bool
    ensures { result ≡ can_stand item }
{
    match item {
        Carried::Post { .. } | Carried::Ask { .. } | Carried::Done { .. } => true,
        Carried::Room | Carried::Gone { .. } => false,
    }
}

/// Whether it is a posted write or a delayed request of the operation.
pub(crate) fn is_of(item: Carried, of: OpId) -> bool
    ensures { result ≡ is_of of item }
{
    match item {
        Carried::Post { op } => same_op(of, op),
        Carried::Ask { op, .. } => same_op(of, op),
        Carried::Done { .. } | Carried::Room | Carried::Gone { .. } => false,
    }
}

/// The other lane of the bridge.
pub fn lane_back(lane: Lane) -> Lane
    ensures { result ≡ lane_back lane }
{
    Lane {
        bus: lane.bus,
        up: !lane.up,
    }
}

ghost use Rattle.std.specs.Prelude.{◌≡◌, IsTrue, false};
ghost use Rattle.board_model.specs.WellFormed.{is_well_formed};
ghost use Rattle.history_model.specs.Next.{down_to, up_from};
ghost use Rattle.history_model.specs.Runs.{Run, history_of};
ghost use Rattle.history_model.specs.World.{both, world_of};

use board_model::{Board, Lane};
use history_model::{Event, Rule};
use judge_lanes::BridgeLanes;

/// The lanes of the bridge to the bus after these events, the first event first, on bridges that
/// keep the local master. There is nothing on those of no bridge.
pub fn lanes_after_events(board: &Board, before: &[Event], bus: u8) -> BridgeLanes
    requires formed { IsTrue (is_well_formed board.now) }
    requires run { Run board.now (history_of before.now) }
    ensures { result ≡
        both (world_of board.now (history_of before.now)) (record { bus = bus; up = false }) }
{
    let mut lanes = BridgeLanes::new();
    for event in before {
        lanes.happen(board, Rule::Tagged, event, bus);
    }
    lanes
}

/// The lane of the bridge to the bus, down to it.
pub(crate) fn down_to(bus: u8) -> Lane
    ensures { result ≡ down_to bus }
{
    Lane { bus, up: false }
}

/// The lane of the bridge to the bus, up from it.
pub(crate) fn up_from(bus: u8) -> Lane
    ensures { result ≡ up_from bus }
{
    Lane { bus, up: true }
}

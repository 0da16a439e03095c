ghost use Rattle.std.specs.Prelude.{◌≡◌};
ghost use Rattle.std.specs.Option.{option_copied};
ghost use Rattle.std.specs.List.{find};
ghost use Rattle.board_model.specs.WellFormed.{has_bus};
ghost use Rattle.board_model.specs.Valid.{has_bridge_to, is_bus};
ghost use Rattle.board_model.specs.Ways.{primary_of, end_of};

use crate::{Board, Bridge, Lane};

/// The bridge to this secondary bus.
pub fn bridge_to(board: &Board, bus: u8) -> Option<&Bridge>
    ensures { option_copied result ≡ find (has_bus bus) board.now.bridges }
{
    let bridges = board.bridges.as_slice();
    bridges.iter().find(|bridge| bridge.bus == bus)
}

/// Whether the board has a bridge to this secondary bus.
pub fn has_bridge_to(board: &Board, bus: u8) -> bool
    ensures { result ≡ has_bridge_to board.now bus }
{
    let bridges = board.bridges.as_slice();
    bridges.iter().any(|bridge| bridge.bus == bus)
}

/// Whether the board has this bus: bus 0, or a bridge to it.
pub fn is_bus(board: &Board, bus: u8) -> bool
    ensures { result ≡ is_bus board.now bus }
{
    bus == 0 || has_bridge_to(board, bus)
}

/// The bus above the bridge to a bus; 0 where there is none.
pub fn primary_of(board: &Board, bus: u8) -> u8
    ensures { result ≡ primary_of board.now bus }
{
    match bridge_to(board, bus) {
        Some(bridge) => bridge.parent,
        None => 0,
    }
}

/// The bus on which what the lane carries arrives.
pub fn end_of(board: &Board, lane: Lane) -> u8
    ensures { result ≡ end_of board.now lane }
{
    if lane.up {
        primary_of(board, lane.bus)
    } else {
        lane.bus
    }
}

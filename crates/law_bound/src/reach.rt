//! How far a delayed request has come on its way, in every run of every valid board. The law is the
//! contract of a function that does nothing.
ghost use Rattle.std.specs.Prelude.{List};
ghost use Rattle.std.specs.List.{AllByRecursion};
ghost use Rattle.board_model.specs.declared.board.Board.{Board};
ghost use Rattle.board_model.specs.declared.bridge.Lane.{Lane as BridgeLane};
ghost use Rattle.board_model.specs.Valid.{IsValid};
ghost use Rattle.history_model.specs.declared.event.Event.{Event};
ghost use Rattle.history_model.specs.World.{world_of};
ghost use Rattle.history_model.specs.Runs.{Run};
ghost use Rattle.law_bound.specs.reach.Reach.{Reaches};

/// The lanes that hold a slot for an operation are the first so many of its way from its master's
/// bus: the operation is its master's turn and no posted write, each lane holds one slot for it,
/// and on each but the last its request stands.
pub fn slots_reach()
    ensures { (board : Board) (h : List Event) (lane : BridgeLane) → IsValid board → Run board h →
        AllByRecursion (Reaches board h lane) (world_of board h lane).held }
{}

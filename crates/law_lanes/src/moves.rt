//! What an event does to the lanes is its moves. The law is the contract of a function that does
//! nothing.
ghost use Rattle.std.specs.Prelude.{◌≡◌};
ghost use Rattle.board_model.specs.declared.board.Board.{Board};
ghost use Rattle.board_model.specs.declared.bridge.Lane.{Lane as BridgeLane};
ghost use Rattle.history_model.specs.declared.event.Event.{Event};
ghost use Rattle.history_model.specs.declared.rule.Rule.{Rule};
ghost use Rattle.history_model.specs.World.{World, after_by};
ghost use Rattle.history_model.specs.Moves.{moved_by, moves_in, put_moves};

/// The moves of an event, one after another, leave on each lane what is there after the event: of
/// each event, allowed or not, and whatever was on the lanes.
pub fn moves_are_after()
    ensures { (rule : Rule) (board : Board) (world : World) (e : Event) (lane : BridgeLane) →
        put_moves (moves_in rule board e (moved_by rule board world e)) world lane
        ≡ after_by rule board world e lane }
{}

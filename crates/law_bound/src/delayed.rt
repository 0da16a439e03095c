//! Events of delayed requests lower how many events can still follow, in every run of every valid
//! board. The law is the contract of a function that does nothing.
ghost use Rattle.std.specs.Prelude.{◌+◌, ◌∷◌, ◌≤◌, List};
ghost use Rattle.board_model.specs.declared.board.Board.{Board};
ghost use Rattle.board_model.specs.Valid.{IsValid};
ghost use Rattle.history_model.specs.declared.event.Event.{Event};
ghost use Rattle.history_model.specs.Runs.{Run};
ghost use Rattle.history_model.specs.Left.{left_of};
ghost use Rattle.law_bound.specs.delayed.Delayed.{IsDelayedEvent};

/// Each event of a delayed request lowers what is left by at least one.
pub fn delayed_events_lower_left()
    ensures { (board : Board) (h : List Event) (e : Event) → IsValid board → Run board (e ∷ h) →
        IsDelayedEvent board h e → left_of board (e ∷ h) + 1 ≤ left_of board h }
{}

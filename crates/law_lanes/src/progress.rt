//! Where a run is not complete it can go on, by its next event in a fixed order. Each law is the
//! contract of a function that does nothing.
ghost use Rattle.std.specs.Prelude.{◌≡◌, ◌↔◌, List, IfSome, None};
ghost use Rattle.board_model.specs.declared.board.Board.{Board};
ghost use Rattle.board_model.specs.Fits.{BoardFits};
ghost use Rattle.board_model.specs.Valid.{IsValid};
ghost use Rattle.history_model.specs.declared.event.Event.{Event};
ghost use Rattle.history_model.specs.Runs.{Run, Allowed, Complete};
ghost use Rattle.history_model.specs.Next.{next_of};
ghost use Rattle.law_lanes.specs.progress.Next.{Next};

/// After a run of a valid board that is not complete some event is allowed.
pub fn runs_go_on()
    ensures { (board : Board) (h : List Event) → IsValid board → Run board h →
        ¬ Complete board h → Next board h }
{}

/// The next event of a history in the fixed order is allowed, and after a run of a valid board
/// there is none exactly where the run is complete.
pub fn next_goes_on()
    ensures allowed { (board : Board) (h : List Event) →
        IfSome (next_of board h) (Allowed board h) }
    ensures complete { (board : Board) (h : List Event) → IsValid board → BoardFits board →
        Run board h →
        (next_of board h ≡ None) ↔ Complete board h }
{}

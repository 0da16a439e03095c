//! Every event of a run has a line in a trace. Each law is the contract of a function that does
//! nothing.
mod printed;

ghost use Rattle.std.specs.Prelude.{◌≡◌, List, true, false};
ghost use Rattle.std.specs.List.{AllByRecursion};
ghost use Rattle.board_model.specs.declared.board.Board.{Board};
ghost use Rattle.board_model.specs.declared.bridge.Lane.{Lane as BridgeLane};
ghost use Rattle.board_model.specs.WellFormed.{is_well_formed};
ghost use Rattle.board_model.specs.Valid.{lacks_a_bus};
ghost use Rattle.history_model.specs.declared.event.Event.{Event};
ghost use Rattle.history_model.specs.World.{world_of};
ghost use Rattle.history_model.specs.Runs.{Run};
ghost use Rattle.trace_text.specs.Events.{HasLine};
ghost use Rattle.trace_roundtrip.specs.runs.Completions.{SaysHow};

pub(crate) use printed::run_has_lines;

/// A completion in flight or standing on a lane says what came of its request: a value, that the
/// write was taken, or that it was aborted.
pub fn completions_say_how()
    ensures flying { (board : Board) (h : List Event) (lane : BridgeLane) → Run board h →
        AllByRecursion SaysHow (world_of board h lane).flight }
    ensures standing { (board : Board) (h : List Event) (lane : BridgeLane) → Run board h →
        AllByRecursion SaysHow (world_of board h lane).standing }
{}

/// Every event of a run of a well-formed board that has every bus it names has a line in a trace of
/// it.
pub fn runs_have_lines()
    ensures { (board : Board) (h : List Event) → is_well_formed board ≡ true →
        lacks_a_bus board ≡ false → Run board h → AllByRecursion (HasLine board) h }
{}

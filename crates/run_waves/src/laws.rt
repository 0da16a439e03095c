//! What a dump tells. Each law is the contract of a function that does nothing.
ghost use Rattle.std.specs.Prelude.{◌≡◌, ◌<◌, ℕ, List, length};
ghost use Rattle.board_model.specs.declared.board.Board.{Board};
ghost use Rattle.board_model.specs.Valid.{IsValid};
ghost use Rattle.history_model.specs.declared.event.Event.{Event};
ghost use Rattle.history_model.specs.Runs.{Run, history_of};
ghost use Rattle.run_waves.specs.Signals.{signals_of};
ghost use Rattle.run_waves.specs.Dump.{code_of};
ghost use Rattle.run_waves.specs.Told.{TellsSignals, IsDumped};
ghost use Rattle.run_waves.specs.Widths.{NumbersFit};

/// No two signals of a valid board have one code.
pub fn codes_are_apart()
    ensures { (board : Board) (j k : ℕ) → IsValid board → j < length (signals_of board) →
        k < length (signals_of board) → code_of j ≡ code_of k → j ≡ k }
{}

/// The dump of a run is the declarations, the values at first, and the lines of the moments.
pub fn dumps_are_lines()
    ensures { (board : Board) (events : List Event) → IsDumped board events }
{}

/// At each moment the value that a signal of a valid board was given last is what it shows.
pub fn dumps_tell()
    ensures { (board : Board) (events : List Event) → IsValid board → TellsSignals board events }
{}

/// In each run of a valid board a number that is shown of a lane, a master or a target has no more
/// bits than its signal is declared with.
pub fn widths_fit()
    ensures { (board : Board) (events : List Event) → IsValid board →
        Run board (history_of events) → NumbersFit board events }
{}

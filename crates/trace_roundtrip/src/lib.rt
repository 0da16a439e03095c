//! What is printed of a board and its events is read as that board and those events. Each law is
//! the contract of a function that does nothing. It is of well-formed boards that have each bus
//! they name, and of fewer than 2^32 events that have lines over the board, as those of its runs
//! have (`runs_have_lines`).
#![tactic(auto)]

mod comments;
mod events;
mod names;
mod printed;
mod runs;
mod written;

ghost use Rattle.std.specs.Prelude.{◌≡◌, ◌<◌, ◌^◌, List, length, Ok, true, false};
ghost use Rattle.std.specs.List.{AllByRecursion};
ghost use Rattle.board_model.specs.declared.board.Board.{Board};
ghost use Rattle.board_model.specs.WellFormed.{is_well_formed};
ghost use Rattle.board_model.specs.Valid.{lacks_a_bus};
ghost use Rattle.history_model.specs.declared.event.Event.{Event};
ghost use Rattle.board_model.specs.Fits.{BoardFits};
ghost use Rattle.trace_text.specs.Events.{HasLine};
ghost use Rattle.trace_text.specs.Traces.{trace_of};
ghost use Rattle.trace_reader.specs.Traces.{trace_read};
ghost use Rattle.trace_roundtrip.specs.events.Fits.{EventFits};

pub use comments::{are_comments, with_comments};
pub use events::{end_lines_are_read, event_lines_are_read};
pub use names::{numbers_are_read, operations_are_read, targets_are_read};
pub use runs::{completions_say_how, runs_have_lines};
pub use written::run_text;

/// The text of a trace is read as its board and its events, where the board is well formed and has
/// every bus that it names, and each event has a line over it.
pub fn traces_are_read()
    ensures { (board : Board) (events : List Event) → BoardFits board →
        is_well_formed board ≡ true → lacks_a_bus board ≡ false → AllByRecursion EventFits events →
        AllByRecursion (HasLine board) events → length events < 2 ^ 32 →
        trace_read (trace_of board events) ≡ Ok (board, events) }
{}

//! The line of an event in a trace, as it is printed, is read as the event. Each law is the
//! contract of a function that does nothing. The numbers of an event of the program fit: this is
//! the contract of functions that look at its fields and change nothing.
mod fits;

ghost use Rattle.std.specs.Prelude.{◌≡◌, ◌<◌, ◌^◌, ℕ, [], ◌∷◌, Ok, true, false, codes};
ghost use Rattle.std.specs.Fmt.{decimal};
ghost use Rattle.board_model.specs.declared.board.Board.{Board};
ghost use Rattle.board_model.specs.WellFormed.{is_well_formed};
ghost use Rattle.board_model.specs.Valid.{lacks_a_bus};
ghost use Rattle.history_model.specs.declared.event.Event.{Event};
ghost use Rattle.board_model.specs.Fits.{BoardFits};
ghost use Rattle.board_roundtrip.specs.words.Printed.{has_words_alone, joined};
ghost use Rattle.trace_text.specs.Events.{event_line, HasLine};
ghost use Rattle.trace_reader.specs.declared.lines.line.TraceLine.TheVariants.{Happens, Ends};
ghost use Rattle.trace_reader.specs.lines.Lines.{line_of};
ghost use Rattle.trace_roundtrip.specs.events.Fits.{EventFits};

pub use fits::{event_fits, events_fit};

/// The line of an event of the board, as it is printed, is read as the event.
pub fn event_lines_are_read()
    ensures read { (board : Board) (event : Event) → BoardFits board → is_well_formed board ≡ true →
        lacks_a_bus board ≡ false → EventFits event → HasLine board event →
        line_of board (joined (event_line board event)) ≡ Ok (Happens event) }
    ensures words { (board : Board) (event : Event) → BoardFits board →
        is_well_formed board ≡ true → lacks_a_bus board ≡ false → EventFits event →
        HasLine board event → has_words_alone (event_line board event) ≡ true }
{}

/// So is the last line, with the number of events.
pub fn end_lines_are_read()
    ensures read { (board : Board) (n : ℕ) → n < 2 ^ 32 →
        line_of board (joined (codes "end" ∷ decimal n ∷ [])) ≡ Ok (Ends n) }
    ensures words { (n : ℕ) → n < 2 ^ 32 → has_words_alone (codes "end" ∷ decimal n ∷ []) ≡ true }
{}

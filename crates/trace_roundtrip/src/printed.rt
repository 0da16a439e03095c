ghost use Rattle.std.specs.Prelude.{◌≡◌, ◌<◌, ◌^◌, IsTrue, length, Ok, false};
ghost use Rattle.std.specs.List.{All};
ghost use Rattle.board_model.specs.WellFormed.{is_well_formed};
ghost use Rattle.board_model.specs.Valid.{lacks_a_bus};
ghost use Rattle.trace_text.specs.Events.{HasLine};
ghost use Rattle.trace_text.specs.Traces.{trace_of};
ghost use Rattle.trace_reader.specs.Traces.{trace_read};

use crate::events::events_fit;
use crate::traces_are_read;
use board_model::{Board, board_fits};
use history_model::Event;

/// What is printed of a board and events of the program is read as the same pair.
pub(crate) fn printed_trace_is_read(board: &Board, events: &[Event])
    requires well_formed { IsTrue (is_well_formed board.now) }
    requires buses { lacks_a_bus board.now ≡ false }
    requires lines { All (HasLine board.now) events.now }
    requires few { length events.now < 2 ^ 32 }
    ensures { trace_read (trace_of board.now events.now) ≡ Ok (board.now, events.now) }
{
    board_fits(board);
    events_fit(events);
    traces_are_read();
}

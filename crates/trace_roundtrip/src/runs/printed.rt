ghost use Rattle.std.specs.Prelude.{◌≡◌, false, All, IsTrue};
ghost use Rattle.board_model.specs.WellFormed.{is_well_formed};
ghost use Rattle.board_model.specs.Valid.{lacks_a_bus};
ghost use Rattle.history_model.specs.Runs.{Run, history_of};
ghost use Rattle.trace_text.specs.Events.{HasLine};

use crate::runs::runs_have_lines;
use board_model::Board;
use history_model::Event;

/// The events of a run of the program have lines, in the order of a trace.
pub(crate) fn run_has_lines(board: &Board, events: &[Event])
    requires well_formed { IsTrue (is_well_formed board.now) }
    requires buses { lacks_a_bus board.now ≡ false }
    requires run { Run board.now (history_of events.now) }
    ensures { All (HasLine board.now) events.now }
{
    runs_have_lines();
}

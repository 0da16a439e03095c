ghost use Rattle.std.specs.Prelude.{◌≡◌, ◌<◌, ◌^◌, IfOk, IsTrue, length, false};
ghost use Rattle.board_model.specs.WellFormed.{is_well_formed};
ghost use Rattle.board_model.specs.Valid.{lacks_a_bus};
ghost use Rattle.history_model.specs.Runs.{Run, history_of};
ghost use Rattle.trace_roundtrip.specs.Printed.{IsTraceOf};

use crate::printed::printed_trace_is_read;
use crate::runs::run_has_lines;
use board_model::Board;
use history_model::Event;
use pci_command::{List, NoMemory};
use std::alloc::Global;
use trace_text::print_trace;

/// The trace text of a run, which is read as this run.
pub fn run_text(alloc: Global, board: &Board, events: &[Event]) -> Result<List<u8>, NoMemory>
    requires well_formed { IsTrue (is_well_formed board.now) }
    requires buses { lacks_a_bus board.now ≡ false }
    requires run { Run board.now (history_of events.now) }
    requires few { length events.now < 2 ^ 32 }
    ensures { IfOk result (IsTraceOf board.now events.now) }
{
    run_has_lines(board, events);
    printed_trace_is_read(board, events);
    print_trace(alloc, board, events)
}

ghost use Rattle.std.specs.Prelude.{List};
ghost use Rattle.board_model.specs.declared.board.Board.{Board};
ghost use Rattle.history_model.specs.declared.event.Event.{Event};
ghost use Rattle.draw_journeys.specs.Journeys.{ShowsRun};
ghost use Rattle.draw_journeys.specs.Steps.{journeys_in};

/// The journeys by any events show them: at each moment, each lane has in them what it has in the
/// machine, in the same order.
pub fn journeys_show_runs()
    ensures { (board : Board) (events : List Event) →
        ShowsRun board events (journeys_in board events) }
{}

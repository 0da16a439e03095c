//! The counts of complete runs: on a board without stalls, bursts in parts, polls, discards and
//! drops each operation has the same events in every complete run, by its way alone. Each law is
//! the contract of a function that does nothing.
ghost use Rattle.std.specs.Prelude.{◌≡◌, List, length};
ghost use Rattle.board_model.specs.declared.board.Board.{Board};
ghost use Rattle.board_model.specs.Valid.{IsValid};
ghost use Rattle.board_model.specs.Ways.{bound_of};
ghost use Rattle.history_model.specs.declared.event.Event.{Event};
ghost use Rattle.history_model.specs.Runs.{Run, Complete};
ghost use Rattle.run_report.specs.Report.{report_of};
ghost use Rattle.run_report.specs.way_counts.Plain.{IsSteady};
ghost use Rattle.run_report.specs.way_counts.WayCounts.{Weight, ways_weight, way_report};
ghost use Rattle.run_report.specs.way_counts.Weighed.{weigh};

/// However events are weighed by their bus and kind, all events of a complete run of a steady board
/// weigh what its operations weigh along their ways.
pub fn complete_runs_weigh_their_ways()
    ensures { (board : Board) (weight : Weight) (h : List Event) → IsValid board → IsSteady board →
        Run board h → Complete board h → weigh board weight h ≡ ways_weight board weight }
{}

/// So a complete run of a steady board has as many events as the board's bound, and its report is
/// the one of the way counts.
pub fn complete_runs_have_the_way_counts()
    ensures many { (board : Board) (h : List Event) → IsValid board → IsSteady board → Run board h →
        Complete board h → length h ≡ bound_of board }
    ensures report { (board : Board) (h : List Event) → IsValid board → IsSteady board →
        Run board h → Complete board h → report_of board h ≡ way_report board }
{
    complete_runs_weigh_their_ways();
}

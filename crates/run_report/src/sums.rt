//! The counts of a report and the number of events that it tells. The law is the contract of a
//! function that does nothing.
ghost use Rattle.std.specs.Prelude.{◌≡◌, List, length};
ghost use Rattle.list_facts.specs.Lists.{total};
ghost use Rattle.board_model.specs.declared.board.Board.{Board};
ghost use Rattle.board_model.specs.Fits.{BoardFits};
ghost use Rattle.board_model.specs.Valid.{IsValid};
ghost use Rattle.history_model.specs.declared.event.Event.{Event};
ghost use Rattle.history_model.specs.Runs.{Run};
ghost use Rattle.run_report.specs.Counts.{kinds, count_of};
ghost use Rattle.run_report.specs.Report.{buses_of};

/// The counts of all lines of a run's report add up to the number of its events: each event is of
/// one kind, and on one bus of the board.
pub fn counts_add_up()
    ensures { (board : Board) (h : List Event) → IsValid board → BoardFits board → Run board h →
        total (λ bus. total (count_of board h bus) kinds) (buses_of board) ≡ length h }
{}

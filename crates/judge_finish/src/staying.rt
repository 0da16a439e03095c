ghost use Rattle.std.specs.Prelude.{◌≡◌, ◌++◌, ◌≤◌, List, length};
ghost use Rattle.board_model.specs.declared.board.Board.{Board};
ghost use Rattle.history_model.specs.declared.event.Event.{Event};
ghost use Rattle.judge_check.specs.Verdicts.{CompleteRun};
ghost use Rattle.judge_finish.specs.Finishing.{Finishes};

/// What is finished stays as it is: a complete run does not go on, and a finished run that is cut
/// behind the events that were read, or further on, goes on to the same end. The law is the
/// contract of a function that does nothing.
pub fn finished_runs_stay()
    ensures again { (board : Board) (whole again : List Event) → CompleteRun board whole →
        Finishes board whole again → again ≡ whole }
    ensures fronts { (board : Board) (events whole front behind other : List Event) →
        Finishes board events whole → whole ≡ front ++ behind → length events ≤ length front →
        Finishes board front other → other ≡ whole }
{}

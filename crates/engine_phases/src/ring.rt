//! The laws of phases in which what is sent may come across at once, as it does over rings: each
//! worker of a bus does turns of its own, and then all lanes are settled. Each law is the contract
//! of a function that does nothing.
ghost use Rattle.std.specs.Prelude.{◌≡◌, ℕ, ◌+◌, ◌≤◌, Bool, true, false, List};
ghost use Rattle.board_model.specs.declared.board.Board.{Board};
ghost use Rattle.board_model.specs.Valid.{IsValid};
ghost use Rattle.bus_segment.specs.Stands.{WorkerView};
ghost use Rattle.engine_phases.specs.Phase.{AllMaySettle, AllSettled, NoneStopped, IsCompleteRun};
ghost use Rattle.engine_phases.specs.Phase.{count_all, history_of_all};
ghost use Rattle.engine_phases.specs.ring.Rounds.{AfterRounds, AllRan};

use lane_items::LaneEnd;
use law_bound::runs_end;

/// Each phase before made an event, and no run of a valid board has more events than the board's
/// bound: so there were at most 500,000 events, and as many phases.
pub fn rounds_are_few<L: LaneEnd>()
    ensures events { (board : Board) (workers : List (WorkerView L)) (phases : ℕ) → IsValid board →
        AfterRounds L.had L.sent L.got L.kept L.paired board workers phases →
        count_all workers ≤ 500000 }
    ensures phases { (board : Board) (workers : List (WorkerView L)) (phases : ℕ) → IsValid board →
        AfterRounds L.had L.sent L.got L.kept L.paired board workers phases → phases ≤ 500000 }
{
    runs_end();
}

/// After the turns of a phase the two ends of each bridge may be settled, whatever came across
/// before, and also where some workers stopped.
pub fn rounds_may_settle<L: LaneEnd>()
    ensures { (board : Board) (old new : List (WorkerView L)) (phases : ℕ) (busy : Bool) →
        IsValid board → AfterRounds L.had L.sent L.got L.kept L.paired board old phases →
        AllRan L.had L.sent L.got L.kept L.paired board phases old new busy →
        AllMaySettle L.had L.sent L.got L.kept L.paired new }
{}

/// When all ends are settled, it is seen that no worker stopped.
pub fn rounds_stop_no_worker<L: LaneEnd>()
    ensures { (board : Board) (old new settled : List (WorkerView L)) (phases : ℕ) (busy : Bool) →
        IsValid board → AfterRounds L.had L.sent L.got L.kept L.paired board old phases →
        AllRan L.had L.sent L.got L.kept L.paired board phases old new busy →
        AllSettled L.had L.sent L.got L.kept L.paired new settled → NoneStopped new }
{
    runs_end();
}

/// After a busy phase, when all ends are settled, the next one may begin.
pub fn rounds_go_on<L: LaneEnd>()
    ensures { (board : Board) (old new settled : List (WorkerView L)) (phases : ℕ) → IsValid board →
        AfterRounds L.had L.sent L.got L.kept L.paired board old phases →
        AllRan L.had L.sent L.got L.kept L.paired board phases old new true →
        AllSettled L.had L.sent L.got L.kept L.paired new settled →
        AfterRounds L.had L.sent L.got L.kept L.paired board settled (phases + 1) }
{
    rounds_stop_no_worker::<L>();
}

/// After a phase in which no worker made an event, when all ends are settled, what all did is a
/// complete run.
pub fn idle_rounds_end_the_run<L: LaneEnd>()
    ensures { (board : Board) (old new settled : List (WorkerView L)) (phases : ℕ) → IsValid board →
        AfterRounds L.had L.sent L.got L.kept L.paired board old phases →
        AllRan L.had L.sent L.got L.kept L.paired board phases old new false →
        AllSettled L.had L.sent L.got L.kept L.paired new settled →
        IsCompleteRun board (history_of_all settled) }
{
    runs_end();
    rounds_stop_no_worker::<L>();
}

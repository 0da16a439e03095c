//! The laws of the buses of a board, each worked as a segment, phase by phase. Each law is the
//! contract of a function that does nothing, or that only calls the laws which it rests on. Stamps
//! are numbers of phases, of which there are at most 500,000, since each phase but the last has an
//! event; laws of one phase by itself have the premise that stamps are below 2^31.
#![tactic(auto)]

ghost use Rattle.std.specs.Prelude.{◌≡◌, ℕ, ◌+◌, ◌^◌, ◌≤◌, Bool, true, false, List, ◌++◌, length};
ghost use Rattle.std.specs.Prelude.{Option, Some, option_to_list};
ghost use Rattle.board_model.specs.declared.board.Board.{Board};
ghost use Rattle.board_model.specs.declared.bridge.Lane.{Lane as BridgeLane};
ghost use Rattle.board_model.specs.declared.bridge.Bridge.{Bridge};
ghost use Rattle.board_model.specs.Valid.{IsValid};
ghost use Rattle.board_model.specs.Ways.{end_of, lane_back};
ghost use Rattle.history_model.specs.Answers.{bridge_to};
ghost use Rattle.history_model.specs.declared.event.Stamped.{Stamped};
ghost use Rattle.lane_items.specs.declared.item.Item.{Item};
ghost use Rattle.bus_face.specs.Arrivals.{carried};
ghost use Rattle.bus_core.specs.Bus.{shape_of, IsOf};
ghost use Rattle.bus_core.specs.Calls.{stamp_of};
ghost use Rattle.bus_segment.specs.Segment.{SegmentView, SegmentGoes};
ghost use Rattle.bus_segment.specs.Stands.{WorkerView, SegmentStands, IsAtPorts};
ghost use Rattle.bus_segment.specs.Turn.{StopsAt};
ghost use Rattle.law_local.specs.Stamps.{IsMerged};
ghost use Rattle.law_local.specs.phases.Engine.{Stands, Engine, Worked, AllInOrder, ending_on};
ghost use Rattle.law_local.specs.phases.Engine.{put_up_to};
ghost use Rattle.engine_phases.specs.Workers.{AreBetween, AllDidPhase, IsStampedBelow};
ghost use Rattle.engine_phases.specs.Phase.{AfterPhases, AllTurned, NoneStopped, CrossesAtSettle};
ghost use Rattle.engine_phases.specs.Phase.{AllMaySettle, AllSettled, IsCompleteRun};
ghost use Rattle.engine_phases.specs.Phase.{history_of_all};

mod merging;
mod ring;

use lane_items::LaneEnd;
use law_bound::runs_end;
pub use merging::{merge, merge_keeps_parts};
pub use ring::{
    idle_rounds_end_the_run, rounds_are_few, rounds_go_on, rounds_may_settle, rounds_stop_no_worker,
};

/// What a segment stands for is what the laws of phases suppose of its bus.
pub fn segments_stand()
    ensures { (board : Board) (s : SegmentView) (p : List Stamped)
        (received_at sent_at : ℕ → List Item) (received put : BridgeLane → List Item) →
        IsOf board (shape_of s.bus) → IsAtPorts board s received_at sent_at received put →
        SegmentStands board s p received_at sent_at →
        Stands carried stamp_of board s.bus.bus received put p }
{}

/// A segment stands after a turn for what it did before and in the turn.
pub fn turns_keep_standing()
    ensures { (board : Board) (old new : SegmentView) (p later : List Stamped)
        (received sent taken puts : ℕ → List Item) →
        shape_of new.bus ≡ shape_of old.bus → SegmentStands board old p received sent →
        SegmentGoes board old new later taken puts →
        SegmentStands board new (later ++ p) (λ n. received n ++ taken n) (λ n. sent n ++ puts n) }
{}

/// What holds of all segments between two phases is what the laws of phases suppose of an engine.
pub fn segments_are_an_engine<L: LaneEnd>()
    ensures { (board : Board) (workers : List (WorkerView L))
        (received hand : BridgeLane → List Item) (part : ℕ → List Stamped) →
        AreBetween L.had L.sent L.got L.kept L.paired board workers received hand part →
        Engine carried stamp_of board received hand part }
{}

/// What all segments did in a phase is what the laws of phases suppose of a phase.
pub fn segments_work_a_phase<L: LaneEnd>()
    ensures { (board : Board) (old new : List (WorkerView L))
        (received hand taken not_taken sent : BridgeLane → List Item)
        (part later : ℕ → List Stamped) →
        AreBetween L.had L.sent L.got L.kept L.paired board old received hand part →
        AllDidPhase board old new taken not_taken sent part later →
        (worked : Worked carried stamp_of board received hand
        (λ lane. taken lane ++ not_taken lane) sent (λ bus. later bus ++ part bus)) ×
        ((lane : BridgeLane) → worked.not_taken lane ≡ not_taken lane) }
{}

/// In a phase in which all lanes brought their items in order no segment has a cause to stop, at
/// any port of a bridge's lane, where all that was put comes to its bus and stamps are below 2^31.
pub fn segments_do_not_stop<L: LaneEnd>()
    ensures { (board : Board) (old new : List (WorkerView L))
        (received hand taken not_taken sent : BridgeLane → List Item) (kept : BridgeLane → ℕ)
        (part later : ℕ → List Stamped) (all : List Stamped)
        (lane : BridgeLane) (bridge : Bridge) (refused : Option Item) → IsValid board →
        AreBetween L.had L.sent L.got L.kept L.paired board old received hand part →
        AllDidPhase board old new taken not_taken sent part later →
        AllInOrder board hand (λ l. taken l ++ not_taken l) sent kept →
        IsMerged board (λ bus. later bus ++ part bus) all →
        bridge_to board lane.bus ≡ Some bridge → not_taken lane ≡ option_to_list refused →
        IsStampedBelow (2 ^ 31) refused →
        kept (lane_back lane) ≤ length (sent (lane_back lane)) →
        StopsAt board (end_of board lane) (ending_on board (end_of board lane)
        (put_up_to received hand sent)) (later (end_of board lane) ++
        part (end_of board lane)) lane refused (kept (lane_back lane)) → ⊥ }
{}

/// Each phase before made an event, and no run of a valid board has more events than the board's
/// bound: so there were at most 500,000 phases.
pub fn phases_are_few<L: LaneEnd>()
    ensures { (board : Board) (workers : List (WorkerView L)) (phases : ℕ) → IsValid board →
        AfterPhases L.had L.sent L.got L.kept L.paired board workers phases → phases ≤ 500000 }
{
    runs_end();
}

/// After the turns of a phase the two ends of each bridge may be settled. And no worker stopped,
/// where what is sent comes across at the settle alone.
pub fn turns_stop_no_worker<L: LaneEnd>()
    ensures settle { (board : Board) (old new : List (WorkerView L)) (phases : ℕ) (busy : Bool) →
        IsValid board → AfterPhases L.had L.sent L.got L.kept L.paired board old phases →
        AllTurned L.had L.sent L.got L.kept L.paired board (phases + 1) old new busy →
        AllMaySettle L.had L.sent L.got L.kept L.paired new }
    ensures going { (board : Board) (old new : List (WorkerView L)) (phases : ℕ) (busy : Bool) →
        IsValid board → AfterPhases L.had L.sent L.got L.kept L.paired board old phases →
        AllTurned L.had L.sent L.got L.kept L.paired board (phases + 1) old new busy →
        CrossesAtSettle L.had L.got → NoneStopped new }
{
    phases_are_few::<L>();
}

/// After a busy phase, when all ends are settled, the next one may begin.
pub fn settles_end_a_phase<L: LaneEnd>()
    ensures { (board : Board) (old new settled : List (WorkerView L)) (phases : ℕ) → IsValid board →
        AfterPhases L.had L.sent L.got L.kept L.paired board old phases →
        AllTurned L.had L.sent L.got L.kept L.paired board (phases + 1) old new true →
        CrossesAtSettle L.had L.got → AllSettled L.had L.sent L.got L.kept L.paired new settled →
        AfterPhases L.had L.sent L.got L.kept L.paired board settled (phases + 1) }
{
    turns_stop_no_worker::<L>();
}

/// After a phase in which no worker made an event, what all did is a complete run.
pub fn idle_phases_end_the_run<L: LaneEnd>()
    ensures { (board : Board) (old new : List (WorkerView L)) (phases : ℕ) → IsValid board →
        AfterPhases L.had L.sent L.got L.kept L.paired board old phases →
        AllTurned L.had L.sent L.got L.kept L.paired board (phases + 1) old new false →
        CrossesAtSettle L.had L.got → IsCompleteRun board (history_of_all new) }
{
    runs_end();
    turns_stop_no_worker::<L>();
}

//! A segment: one bus of the board by itself, between the ends of its bridges' lanes. It knows only
//! what it did and what came to it, and stands for that past whatever comes later.
#![tactic(auto)]

mod ends;
mod segment;
mod settle;
pub mod turns;

ghost use Rattle.std.specs.Prelude.{◌≡◌, ◌==◌, ◌<◌, ◌≤◌, ℕ, false, List, [], ◌∷◌, ◌++◌, Option};
ghost use Rattle.std.specs.Prelude.{Some, None, option_to_list, slice_get, if◌then◌else◌};
ghost use Rattle.pci_command.specs.declared.op_id.OpId.{OpId};
ghost use Rattle.board_model.specs.declared.board.Board.{Board};
ghost use Rattle.board_model.specs.declared.bridge.Lane.{Lane as BridgeLane};
ghost use Rattle.board_model.specs.Valid.{IsValid};
ghost use Rattle.board_model.specs.declared.bridge.Place.{Place};
ghost use Rattle.history_model.specs.declared.event.By.{By};
ghost use Rattle.history_model.specs.declared.event.Step.{Step};
ghost use Rattle.history_model.specs.declared.event.Event.{Event};
ghost use Rattle.history_model.specs.declared.event.Event.TheVariants.{Act, Arrive};
ghost use Rattle.history_model.specs.declared.item.Carried.{Carried};
ghost use Rattle.history_model.specs.Lanes.{empty_lane};
ghost use Rattle.history_model.specs.Answers.{bridge_to};
ghost use Rattle.history_model.specs.Local.{local_world, LocalRun};
ghost use Rattle.history_model.specs.declared.event.Mark.{Mark};
ghost use Rattle.history_model.specs.declared.item.Answer.TheVariants.{Gives};
ghost use Rattle.history_model.specs.declared.event.Stamped.{Stamped};
ghost use Rattle.lane_items.specs.declared.item.Item.{Item};
ghost use Rattle.bus_core.specs.declared.given.Sent.{Sent};
ghost use Rattle.bus_core.specs.Bus.{BusView, shape_of};
ghost use Rattle.bus_core.specs.Calls.{stamp_of, items_at, IsStamped};
ghost use Rattle.bus_core.specs.Serves.{BusPresents, HasStamp, BusArrives};
ghost use Rattle.bus_segment.specs.Segment.{SegmentView, SegmentGoes};
ghost use Rattle.bus_segment.specs.Turn.{Does};

use lane_items::LaneEnd;
pub use segment::Segment;
pub use turns::Worker;

/// A segment that does nothing stands for its past, and what it does later it does after what it
/// did before: with these the turns of a segment, and the steps of a turn, make one past.
pub fn segments_go_on()
    ensures nothing { (board : Board) (s : SegmentView) →
        SegmentGoes board s s [] (λ n. []) (λ n. []) }
    ensures further { (board : Board) (old mid new : SegmentView) (first second : List Stamped)
        (some more puts others : ℕ → List Item) →
        SegmentGoes board old mid first some puts → SegmentGoes board mid new second more others →
        SegmentGoes board old new (second ++ first) (λ n. some n ++ more n)
        (λ n. puts n ++ others n) }
{}

/// An act of the bus makes its past longer by one event, with the stamp that the segment has.
pub fn acts_go_on()
    ensures { (board : Board) (by : By) (o : OpId) (step : Step) (place : Place) (old new : BusView)
        (over back : Option Sent) (stamp : ℕ) →
        BusPresents board by o old (Gives step place) over back new → shape_of new ≡ shape_of old →
        IsStamped stamp over → IsStamped stamp back →
        SegmentGoes board (record { bus = old; stamp = stamp; stopped = false })
        (record { bus = new; stamp = stamp; stopped = false })
        (record { stamp = stamp; event = Act old.bus by o step place } ∷ []) (λ n. [])
        (λ n. items_at over n ++ items_at back n) }
{}

/// An item that the bus takes makes its past longer by an arrival, with a stamp above that of the
/// item and none below that of the segment.
pub fn arrivals_go_on()
    ensures { (board : Board) (place : ℕ) (lane : BridgeLane) (item : Item) (mark : Mark)
        (back : Option Item) (old new : BusView) (stamp later : ℕ) → IsValid board →
        slice_get (shape_of old).lanes place ≡ Some lane →
        BusArrives board place old item mark back new → shape_of new ≡ shape_of old →
        stamp ≤ later → stamp_of item < later → HasStamp later back →
        SegmentGoes board (record { bus = old; stamp = stamp; stopped = false })
        (record { bus = new; stamp = later; stopped = false })
        (record { stamp = later; event = Arrive lane mark } ∷ [])
        (λ n. if place == n then item ∷ [] else [])
        (λ n. if place == n then option_to_list back else []) }
{}

/// Where nothing comes on a lane of no bridge, nothing is ever on one by what the bus knows:
/// nothing is sent there, and nothing stands there to be presented.
pub fn other_lanes_stay_empty()
    ensures { (board : Board) (bus : ℕ) (came : BridgeLane → List Carried) →
        ((lane : BridgeLane) → bridge_to board lane.bus ≡ None → came lane ≡ []) →
        (p : List Event) → LocalRun board bus came p → (lane : BridgeLane) →
        bridge_to board lane.bus ≡ None → local_world board came p lane ≡ empty_lane }
{}

/// Doing nothing is a turn, and a step after a turn is a turn, while the segment goes on: so the
/// steps of a turn, one after the other, are one.
pub fn steps_go_on<L: LaneEnd>()
    ensures nothing { (board : Board) (s : SegmentView) (ends : List L) (events : List Stamped) →
        Does L.had L.sent L.got L.kept L.paired board s s ends ends events events }
    ensures further { (board : Board) (old mid new : SegmentView) (ends between after : List L)
        (events some all : List Stamped) → old.stopped ≡ false → mid.stopped ≡ false →
        Does L.had L.sent L.got L.kept L.paired board old mid ends between events some →
        Does L.had L.sent L.got L.kept L.paired board mid new between after some all →
        Does L.had L.sent L.got L.kept L.paired board old new ends after events all }
{}

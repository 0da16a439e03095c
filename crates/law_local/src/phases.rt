//! What all buses did up to some time is a run, whatever of it each bus has received by then; and
//! in such a run no bus meets what it would have to stop at. So an engine that works each bus by
//! itself, phase by phase, with a test of each item that comes, never stops. Each law is the
//! contract of a function that does nothing.
ghost use Rattle.std.specs.Prelude.{◌≡◌, ℕ, ◌<◌, ◌≤◌, true, List, [], ◌∷◌, ◌++◌, length, Some};
ghost use Rattle.board_model.specs.declared.board.Board.{Board};
ghost use Rattle.board_model.specs.declared.bridge.Lane.{Lane as BridgeLane};
ghost use Rattle.board_model.specs.declared.bridge.Bridge.{Bridge};
ghost use Rattle.board_model.specs.Valid.{is_bus, IsValid};
ghost use Rattle.board_model.specs.Ways.{end_of, lane_back};
ghost use Rattle.history_model.specs.declared.event.Event.{Event};
ghost use Rattle.history_model.specs.declared.event.Stamped.{Stamped};
ghost use Rattle.history_model.specs.declared.item.Carried.{Carried};
ghost use Rattle.law_local.specs.Known.{events_on, known, JointRun};
ghost use Rattle.law_local.specs.Stamps.{events_of, IsMerged};
ghost use Rattle.law_local.specs.phases.Pasts.{AllPasts, RunSoFar};
ghost use Rattle.history_model.specs.Answers.{bridge_to};
ghost use Rattle.history_model.specs.Local.{is_lawful_on};
ghost use Rattle.history_model.specs.Runs.{Complete};
ghost use Rattle.lane_items.specs.declared.item.Item.{Item};
ghost use Rattle.lane_items.specs.Lane.{GotInOrder, left_count, Crosses};
ghost use Rattle.law_local.specs.phases.Engine.{NoneElsewhere, Engine, Worked, TookAll, AllInOrder};
ghost use Rattle.law_local.specs.phases.Engine.{carried_to, put_up_to, put_in, did_by};
ghost use Rattle.law_local.specs.phases.Engine.{known_at_end};
ghost use Rattle.law_local.specs.room.Room.{Puts};
ghost use Rattle.law_local.specs.phases.Taken.{HasItsKind, NextIsTaken, NeverBack};
ghost use Rattle.law_local.specs.phases.Taken.{NothingTurnsBack, BusesAreQuiet, AllGetARetry};
ghost use Rattle.board_model.specs.Limits.{most_in_flight};

/// What all buses did up to now, in the order of the stamps, is a run; and of what was put on each
/// lane just that is in flight which did not arrive.
pub fn pasts_are_a_run()
    ensures { (board : Board) (sent : BridgeLane → List Carried) (stamps : BridgeLane → List ℕ)
        (part : ℕ → List Stamped) (all : List Stamped) → IsValid board →
        AllPasts board sent stamps part → IsMerged board part all →
        RunSoFar board sent (events_of all) }
{}

/// The next item that comes to a bus passes the bus's own test of it, and is of its kind.
pub fn next_items_are_taken()
    ensures { (board : Board) (sent : BridgeLane → List Carried) (h : List Event) →
        RunSoFar board sent h → NextIsTaken board sent h }
{}

/// What a lane presents to a bus is not claimed there by its own bridge.
pub fn nothing_turns_back()
    ensures { (board : Board) (sent : BridgeLane → List Carried) (h : List Event) →
        IsValid board → JointRun board sent h → NothingTurnsBack board sent h }
{}

/// Where no bus of the board has anything more to do, the run is complete.
pub fn quiet_buses_make_a_complete_run()
    ensures { (board : Board) (sent : BridgeLane → List Carried) (h : List Event) →
        IsValid board → RunSoFar board sent h → BusesAreQuiet board sent h → Complete board h }
{}

/// What holds of all buses between two phases of an engine holds before the first phase, when no
/// bus did anything.
pub fn engines_begin()
    ensures { (carries : Item → Carried) (stamp_of : Item → ℕ) (board : Board) → IsValid board →
        Engine carries stamp_of board (λ lane. []) (λ lane. []) (λ bus. []) }
{}

/// When the buses did their turns of a phase, any two ends of a bridge may be settled, by what its
/// own two buses did.
pub fn phases_have_room()
    ensures { (carries : Item → Carried) (stamp_of : Item → ℕ) (board : Board)
        (received hand got sent : BridgeLane → List Item) (part : ℕ → List Stamped)
        (lane : BridgeLane) (bridge : Bridge) (kept kept_back : ℕ) →
        IsValid board → Worked carries stamp_of board received hand got sent part →
        bridge_to board lane.bus ≡ Some bridge →
        GotInOrder (hand lane) (got lane) (sent lane) kept → GotInOrder (hand (lane_back lane))
        (got (lane_back lane)) (sent (lane_back lane)) kept_back →
        (left_count (hand lane) (got lane) (sent lane) ≤ most_in_flight) ×
        (left_count (hand (lane_back lane)) (got (lane_back lane)) (sent (lane_back lane)) ≤ most_in_flight) }
{}

/// When all lanes brought their items in order, what all buses did up to now is a run, also where
/// some of them stopped; and each bus's part of it, and what is known there, is what the bus did
/// and knows.
pub fn phases_are_a_run()
    ensures run { (carries : Item → Carried) (stamp_of : Item → ℕ) (board : Board)
        (received hand got sent : BridgeLane → List Item) (kept : BridgeLane → ℕ)
        (part : ℕ → List Stamped) (all : List Stamped) →
        IsValid board → Worked carries stamp_of board received hand got sent part →
        AllInOrder board hand got sent kept → IsMerged board part all →
        RunSoFar board (put_in carries received hand sent) (events_of all) }
    ensures did { (board : Board) (part : ℕ → List Stamped) (all : List Stamped) (bus : ℕ) →
        IsMerged board part all → events_on board bus (events_of all) ≡ did_by part bus }
    ensures knows { (carries : Item → Carried) (board : Board)
        (received hand sent : BridgeLane → List Item) (part : ℕ → List Stamped) (all : List Stamped)
        (bus : ℕ) →
        IsMerged board part all → known board (put_in carries received hand sent) bus
        (events_of all) ≡ known_at_end carries board received hand sent part bus }
{}

/// And by what the buses know at the end of the phase, where all that was put comes to them, none
/// of them had a cause to stop: the next item that a bus did not take passes its test and is of its
/// kind; what a lane presents is not claimed by its lane back; and where a bus could put one more
/// item on a lane, its end keeps fewer than 32.
pub fn phases_stop_nowhere()
    ensures taken { (carries : Item → Carried) (stamp_of : Item → ℕ) (board : Board)
        (received hand got sent : BridgeLane → List Item) (kept : BridgeLane → ℕ)
        (part : ℕ → List Stamped) (all : List Stamped) →
        IsValid board → (worked : Worked carries stamp_of board received hand got sent part) →
        AllInOrder board hand got sent kept → IsMerged board part all →
        (lane : BridgeLane) (bridge : Bridge) (item : Item) (more : List Item) →
        bridge_to board lane.bus ≡ Some bridge → worked.not_taken lane ≡ item ∷ more →
        (is_lawful_on board (known_at_end carries board received hand sent part (end_of board lane))
        lane (carries item) ≡ true) × HasItsKind board (end_of board lane) (carries item) }
    ensures back { (carries : Item → Carried) (stamp_of : Item → ℕ) (board : Board)
        (received hand got sent : BridgeLane → List Item) (kept : BridgeLane → ℕ)
        (part : ℕ → List Stamped) (all : List Stamped) →
        IsValid board → Worked carries stamp_of board received hand got sent part →
        AllInOrder board hand got sent kept → IsMerged board part all →
        (lane : BridgeLane) → NeverBack board (known_at_end carries board received hand sent part
        (end_of board lane)) (did_by part (end_of board lane)) lane }
    ensures room { (carries : Item → Carried) (stamp_of : Item → ℕ) (board : Board)
        (received hand got sent : BridgeLane → List Item) (kept : BridgeLane → ℕ)
        (part : ℕ → List Stamped) (lane : BridgeLane) (bridge : Bridge) (e : Event) →
        IsValid board → Worked carries stamp_of board received hand got sent part →
        AllInOrder board hand got sent kept → bridge_to board lane.bus ≡ Some bridge →
        kept lane ≤ length (sent lane) → Puts board (carried_to carries board
        (put_up_to received hand sent)) (did_by part) lane e → kept lane < 32 }
{}

/// When all ends were settled and no bus stopped, it holds again what holds between two phases.
pub fn phases_follow()
    ensures { (carries : Item → Carried) (stamp_of : Item → ℕ) (board : Board)
        (received hand got sent next : BridgeLane → List Item) (kept : BridgeLane → ℕ)
        (part : ℕ → List Stamped) →
        (worked : Worked carries stamp_of board received hand got sent part)
        → TookAll board worked →
        ((lane : BridgeLane) (bridge : Bridge) → bridge_to board lane.bus ≡ Some bridge →
        Crosses (hand lane) (got lane) (sent lane) (kept lane) (next lane)) →
        NoneElsewhere board next →
        Engine carries stamp_of board (λ lane. received lane ++ got lane) next part }
{}

/// Between two phases what all buses did is a run. Where nothing is in hand, and whatever is
/// presented on a bus of the board gets a Retry, it is complete.
pub fn quiet_engines_are_complete()
    ensures run { (carries : Item → Carried) (stamp_of : Item → ℕ) (board : Board)
        (received hand : BridgeLane → List Item) (part : ℕ → List Stamped) (all : List Stamped) →
        IsValid board → Engine carries stamp_of board received hand part → IsMerged board part all →
        RunSoFar board (put_in carries received hand (λ lane. [])) (events_of all) }
    ensures complete { (carries : Item → Carried) (stamp_of : Item → ℕ) (board : Board)
        (received hand : BridgeLane → List Item) (part : ℕ → List Stamped) (all : List Stamped) →
        IsValid board → Engine carries stamp_of board received hand part → IsMerged board part all →
        ((lane : BridgeLane) → hand lane ≡ []) →
        ((bus : ℕ) → is_bus board bus ≡ true → AllGetARetry board
        (known_at_end carries board received hand (λ lane. []) part bus) (did_by part bus) bus) →
        Complete board (events_of all) }
{}

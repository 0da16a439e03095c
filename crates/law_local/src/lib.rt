//! What a bus knows is what it did and what came to it, whenever that was sent. These laws weave
//! the buses together: what each did by what it knows makes up a run of the board, if no item
//! arrives before it was sent, and in every such run what the buses know is what the lanes carry.
//! So a program may let each bus go on by itself, in any order, and put its events in order
//! afterwards. Each law is the contract of a function that does nothing. What is ever sent on each
//! lane is `sent`. On a lane that ends on the bus where it begins nothing is sent (`BetweenBuses`).
//! Both engines rest on these laws.
#![tactic(auto)]

ghost use Rattle.std.specs.Prelude.{ℕ, ◌≢◌, List, ◌∷◌};
ghost use Rattle.board_model.specs.declared.board.Board.{Board};
ghost use Rattle.board_model.specs.declared.bridge.Lane.{Lane as BridgeLane};
ghost use Rattle.board_model.specs.Valid.{IsValid};
ghost use Rattle.history_model.specs.declared.event.Event.{Event};
ghost use Rattle.history_model.specs.declared.event.Stamped.{Stamped};
ghost use Rattle.history_model.specs.declared.item.Carried.{Carried};
ghost use Rattle.history_model.specs.Runs.{Run, Complete};
ghost use Rattle.law_local.specs.Known.{BetweenBuses, JointRun};
ghost use Rattle.law_local.specs.Woven.{AllWoven};
ghost use Rattle.law_local.specs.Stamps.{events_of, LocalParts, IsMerged};
ghost use Rattle.law_local.specs.Answered.{WantsAreLocal, AnswersAreLocal, TestsAreLocal};
ghost use Rattle.law_local.specs.Quiet.{AllQuiet};
ghost use Rattle.law_local.specs.Stays.{Stays};
ghost use Rattle.history_model.specs.Local.{bus_of};

pub mod phases;
pub mod room;

pub use phases::{
    engines_begin, next_items_are_taken, nothing_turns_back, pasts_are_a_run, phases_are_a_run,
    phases_follow, phases_have_room, phases_stop_nowhere, quiet_buses_make_a_complete_run,
    quiet_engines_are_complete,
};
pub use room::{
    buses_keep_their_side, full_lanes_take_no_more, lanes_have_room, order_says_what_is_left,
    settle_has_room,
};

/// Events of all buses, each allowed by what its bus knows, are a run where no item arrives before
/// it was sent; and on each lane there is what the buses at its ends know.
pub fn woven_runs()
    ensures { (board : Board) (sent : BridgeLane → List Carried) (h : List Event) →
        IsValid board → BetweenBuses board sent → AllWoven board sent h → JointRun board sent h }
{}

/// Local runs of all buses in the order of their stamps are a run, where each item arrives at a
/// stamp above that of its sending; and on each lane there is what the buses at its ends know.
pub fn sorted_parts_run()
    ensures { (board : Board) (sent : BridgeLane → List Carried) (part : ℕ → List Stamped)
        (all : List Stamped) → IsValid board → BetweenBuses board sent →
        LocalParts board sent part → IsMerged board part all → JointRun board sent (events_of all) }
{}

/// What is presented on a bus, what it is answered, and which items may come on a lane that ends
/// there, is decided by what the bus knows.
pub fn answers_are_local()
    ensures wanted { (board : Board) (sent : BridgeLane → List Carried) (h : List Event) →
        JointRun board sent h → WantsAreLocal board sent h }
    ensures answered { (board : Board) (sent : BridgeLane → List Carried) (h : List Event) →
        IsValid board → JointRun board sent h → AnswersAreLocal board sent h }
    ensures tested { (board : Board) (sent : BridgeLane → List Carried) (h : List Event) →
        JointRun board sent h → TestsAreLocal board sent h }
{}

/// Where nothing comes to any bus, and whatever is presented gets a Retry, the run is complete.
pub fn quiet_boards_are_complete()
    ensures { (board : Board) (sent : BridgeLane → List Carried) (h : List Event) →
        IsValid board → JointRun board sent h → AllQuiet board sent h → Complete board h }
{}

/// An event on one bus leaves every other bus as it was: what stands on the lanes that end there,
/// whose turn it is, what is presented, and how each is answered.
pub fn other_buses_stay()
    ensures { (board : Board) (h : List Event) (e : Event) (bus : ℕ) → IsValid board →
        Run board (e ∷ h) → bus_of board e ≢ bus → Stays board bus h (e ∷ h) }
{}

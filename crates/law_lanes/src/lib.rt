//! What holds of slots, credits and depths after every run of every board. Each law is the contract
//! of a function that does nothing. What a clause says `under_either_rule` holds of bridges that
//! keep no local master too.
#![tactic(auto)]

ghost use Rattle.std.specs.Prelude.{◌≡◌, ◌++◌, ◌∷◌, ℕ, List, Bool, true, false, Some, None};
ghost use Rattle.std.specs.Prelude.{is_some};
ghost use Rattle.std.specs.List.{AllByRecursion, list_any};
ghost use Rattle.pci_command.specs.declared.request.Request.{Request};
ghost use Rattle.pci_command.specs.declared.op_id.OpId.{OpId};
ghost use Rattle.pci_command.specs.declared.op_id.Outcome.{Outcome};
ghost use Rattle.board_model.specs.declared.board.Board.{Board};
ghost use Rattle.board_model.specs.declared.bridge.Bridge.{Bridge};
ghost use Rattle.board_model.specs.declared.bridge.Lane.{Lane as BridgeLane};
ghost use Rattle.board_model.specs.declared.bridge.Place.TheVariants.{Lane};
ghost use Rattle.board_model.specs.Requests.{op_of, request_of, is_posted};
ghost use Rattle.board_model.specs.WellFormed.{is_well_formed};
ghost use Rattle.history_model.specs.declared.event.By.{By};
ghost use Rattle.history_model.specs.declared.event.Step.TheVariants.{Take};
ghost use Rattle.history_model.specs.declared.event.Event.{Event};
ghost use Rattle.history_model.specs.declared.event.Event.TheVariants.{Act};
ghost use Rattle.history_model.specs.declared.item.Carried.{Carried};
ghost use Rattle.history_model.specs.Lanes.{empty_lane};
ghost use Rattle.history_model.specs.World.{both, world_by, world_of};
ghost use Rattle.history_model.specs.Program.{turn_of};
ghost use Rattle.history_model.specs.Words.{through};
ghost use Rattle.history_model.specs.Answers.{bridge_to, wants};
ghost use Rattle.history_model.specs.declared.rule.Rule.{Rule};
ghost use Rattle.history_model.specs.Runs.{RunBy, Run};
ghost use Rattle.history_model.specs.Local.{Matched, is_lawful_on};
ghost use Rattle.law_lanes.specs.Slots.{Slots, HasOneItem, GoneHeld};
ghost use Rattle.law_lanes.specs.Standing.{CanStand};
ghost use Rattle.law_lanes.specs.Credits.{Credits};
ghost use Rattle.law_lanes.specs.Quiet.{enters_at};
ghost use Rattle.law_lanes.specs.Depths.{Within, DifferentNumbers, DepthsInLimits};
ghost use Rattle.law_lanes.specs.Phases.{DelayedAreSingle};
ghost use Rattle.law_lanes.specs.Latched.{Latched};
ghost use Rattle.law_lanes.specs.Kinds.{RightKind};
ghost use Rattle.law_lanes.specs.Owners.{Owners, TakesItsOwn};
ghost use Rattle.board_model.specs.Ways.{lane_back};
ghost use Rattle.board_model.specs.Limits.{most_posted, most_delayed};

pub mod moves;
pub mod order;
pub mod progress;
pub mod rules;

pub use moves::moves_are_after;
pub use order::{
    operations_end_once, owed_and_held, parts_wait_for_the_rest, posted_writes_are_masters,
    posts_are_on_their_way, posts_are_one, posts_keep_their_order, sent_is_received,
};
pub use progress::{next_goes_on, runs_go_on};
pub use rules::{asked_on_way, depths_in_limits, parts, quiet_bridges_by_rule};

/// The slots at the near face of each lane and their items: each held slot has its item in exactly
/// one of five places, each item has its slot held for the operation that it names, and no number
/// is held twice.
pub fn slots()
    ensures counted { (board : Board) (h : List Event) (lane : BridgeLane) → Run board h →
        Slots (both (world_of board h) lane) }
    ensures under_either_rule { (rule : Rule) (board : Board) (h : List Event) (lane : BridgeLane) →
        RunBy rule board h →
        Slots (both (world_by rule board h) lane) }
    ensures one_item { (board : Board) (h : List Event) (lane : BridgeLane) → Run board h →
        AllByRecursion (HasOneItem (both (world_of board h) lane)) (world_of board h lane).held }
    ensures dropped { (board : Board) (h : List Event) (lane : BridgeLane) → Run board h →
        AllByRecursion (GoneHeld (world_of board h lane).held)
        (world_of board h (lane_back lane)).flight }
{}

/// The credits of each lane: it owes the posted writes in flight and standing, and those whose
/// credit is in flight on the lane back.
pub fn credits()
    ensures counted { (board : Board) (h : List Event) (lane : BridgeLane) → Run board h →
        Credits (both (world_of board h) lane) }
    ensures under_either_rule { (rule : Rule) (board : Board) (h : List Event) (lane : BridgeLane) →
        RunBy rule board h →
        Credits (both (world_by rule board h) lane) }
{}

/// The depths of a bridge bound what is on each of its lanes. A bridge is found by its number,
/// which no other has; and where each depth is one that may be written, what is on any lane is
/// bounded by the greatest of these.
pub fn depths()
    ensures of_bridge { (board : Board) (h : List Event) (lane : BridgeLane) (bridge : Bridge) →
        bridge_to board lane.bus ≡ Some bridge → Run board h →
        Within bridge.posted bridge.delayed (world_of board h lane) }
    ensures under_either_rule { (rule : Rule) (board : Board) (h : List Event) (lane : BridgeLane)
        (bridge : Bridge) →
        bridge_to board lane.bus ≡ Some bridge → RunBy rule board h →
        Within bridge.posted bridge.delayed (world_by rule board h lane) }
    ensures of_each { (board : Board) (h : List Event) → DifferentNumbers board → Run board h →
        AllByRecursion (λ (bridge : Bridge). (up : Bool) → Within bridge.posted bridge.delayed
        (world_of board h (record { bus = bridge.bus; up = up }))) board.bridges }
    ensures in_limits { (board : Board) (h : List Event) (lane : BridgeLane) →
        DepthsInLimits board → Run board h → Within most_posted most_delayed (world_of board h lane) }
{}

/// What stands before in a run is a run: of a history, newest event first, each end of the list.
pub fn prefixes()
    ensures { (board : Board) (later : List Event) (h : List Event) → Run board (later ++ h) →
        Run board h }
{}

/// Only posted writes, delayed requests and completions stand on a lane.
pub fn standing()
    ensures stands { (board : Board) (h : List Event) (lane : BridgeLane) → Run board h →
        AllByRecursion CanStand (world_of board h lane).standing }
    ensures under_either_rule { (rule : Rule) (board : Board) (h : List Event) (lane : BridgeLane) →
        RunBy rule board h →
        AllByRecursion CanStand (world_by rule board h lane).standing }
{}

/// Nothing is on the lanes of a bridge where no posted write was accepted and no delayed request
/// latched, and nothing is on a lane of no bridge.
pub fn quiet_bridges()
    ensures entered { (board : Board) (h : List Event) (lane : BridgeLane) →
        list_any (enters_at lane.bus) h ≡ false → world_of board h lane ≡ empty_lane }
    ensures no_bridge { (board : Board) (h : List Event) (lane : BridgeLane) →
        bridge_to board lane.bus ≡ None → Run board h → world_of board h lane ≡ empty_lane }
{}

/// Each held slot is held for a delayed request that its lane claims on the bus where it begins,
/// and was latched by the master of the operation on that bus, or by a lane that ends there.
pub fn latched()
    ensures { (board : Board) (h : List Event) (lane : BridgeLane) → DifferentNumbers board →
        DelayedAreSingle board → Run board h →
        AllByRecursion (Latched board lane) (world_of board h lane).held }
{}

/// No delayed request goes through in parts.
pub fn delayed_are_whole()
    ensures { (board : Board) (h : List Event) (o : OpId) (on : ℕ) (request : Request) →
        DelayedAreSingle board → Run board h → request_of board o on ≡ Some request →
        is_posted request ≡ false → through h o ≡ 0 }
{}

/// Posted items carry writes in memory, and delayed requests and completions any other operation.
pub fn kinds()
    ensures flying { (board : Board) (h : List Event) (lane : BridgeLane) → Run board h →
        AllByRecursion (RightKind board) (world_of board h lane).flight }
    ensures stands { (board : Board) (h : List Event) (lane : BridgeLane) → Run board h →
        AllByRecursion (RightKind board) (world_of board h lane).standing }
{}

/// The operation of each held slot waits at the initiator that latched it: it is its master's turn,
/// or its delayed request stands on the lane with none of the same request before it. No initiator
/// has two slots of a lane for one request.
pub fn owners()
    ensures { (board : Board) (h : List Event) → DifferentNumbers board → DelayedAreSingle board →
        Run board h → Owners board (turn_of board h) (world_of board h) }
{}

/// An operation that an initiator presents is one of the board's.
pub fn presented()
    ensures { (board : Board) (h : List Event) (on : ℕ) (by : By) (o : OpId) → Run board h →
        wants board h on by o ≡ true → is_some (op_of board o) ≡ true }
{}

/// Each completion is taken by the operation that it was made for.
pub fn matched()
    ensures taken { (board : Board) (h : List Event) (on : ℕ) (by : By) (o : OpId)
        (outcome : Outcome) (lane : BridgeLane) →
        DifferentNumbers board → DelayedAreSingle board →
        Run board (Act on by o (Take outcome) (Lane lane) ∷ h) →
        TakesItsOwn board h on by o outcome lane }
    ensures every_run { (board : Board) (h : List Event) → DifferentNumbers board →
        DelayedAreSingle board → Run board h → Matched board h }
{}

/// What is in flight to a bridge is lawful there: there is room, each completion finds its slot
/// held for its operation, and each credit a posted write that is owed.
pub fn lawful()
    ensures { (board : Board) (h : List Event) (lane : BridgeLane) → Run board h →
        AllByRecursion (λ (item : Carried). is_lawful_on board (world_of board h) lane item ≡ true)
        (world_of board h lane).flight }
{}

/// A well-formed board is one of those that the laws speak of: its bridges have different numbers,
/// each depth is one that may be written, and each operation that is not posted has at most one data phase.
pub fn well_formed_boards()
    ensures numbers { (board : Board) → is_well_formed board ≡ true → DifferentNumbers board }
    ensures depths { (board : Board) → is_well_formed board ≡ true → DepthsInLimits board }
    ensures single { (board : Board) → is_well_formed board ≡ true → DelayedAreSingle board }
{}

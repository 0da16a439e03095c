//! What holds under either rule of the bridge, for judging by it: of bridges that keep the local
//! master with a delayed request, and of bridges that keep none. Each law is the contract of a
//! function that does nothing.
ghost use Rattle.std.specs.Prelude.{◌≡◌, ◌≤◌, ◌<◌, ℕ, List, Some, None, true, false, length};
ghost use Rattle.pci_command.specs.declared.op_id.OpId.{OpId};
ghost use Rattle.board_model.specs.declared.board.Board.{Board};
ghost use Rattle.board_model.specs.declared.bridge.Lane.{Lane as BridgeLane};
ghost use Rattle.board_model.specs.declared.op.Op.{Op};
ghost use Rattle.board_model.specs.Requests.{op_of, request_of, request_on, is_posted, phases_of};
ghost use Rattle.board_model.specs.Valid.{IsValid};
ghost use Rattle.pci_command.specs.declared.request.Request.{Request};
ghost use Rattle.history_model.specs.declared.event.By.TheVariants.{Lane as ByLane};
ghost use Rattle.history_model.specs.declared.event.Event.{Event};
ghost use Rattle.history_model.specs.declared.rule.Rule.{Rule};
ghost use Rattle.history_model.specs.Lanes.{empty_lane};
ghost use Rattle.history_model.specs.World.{world_by};
ghost use Rattle.history_model.specs.Words.{through};
ghost use Rattle.history_model.specs.Answers.{bridge_to, wants_by};
ghost use Rattle.history_model.specs.Runs.{RunBy};
ghost use Rattle.law_lanes.specs.Depths.{Within, DepthsInLimits};
ghost use Rattle.law_lanes.specs.Phases.{DelayedAreSingle};
ghost use Rattle.law_lanes.specs.rules.AskedWay.{AskedWay};
ghost use Rattle.board_model.specs.Limits.{most_posted, most_delayed};

/// Nothing is on the lanes of no bridge.
pub fn quiet_bridges_by_rule()
    ensures { (rule : Rule) (board : Board) (h : List Event) (lane : BridgeLane) →
        bridge_to board lane.bus ≡ None → RunBy rule board h →
        world_by rule board h lane ≡ empty_lane }
{}

/// Where each depth of a bridge is one that may be written, what is on any lane is bounded by the
/// greatest of these.
pub fn depths_in_limits()
    ensures { (rule : Rule) (board : Board) (h : List Event) (lane : BridgeLane) →
        DepthsInLimits board → RunBy rule board h → Within most_posted most_delayed (world_by rule board h lane) }
{}

/// As long as parts of an operation go through, data phases are left. So no delayed request goes
/// through in parts.
pub fn parts()
    ensures some_left { (rule : Rule) (board : Board) (h : List Event) (o : OpId) (op : Op) →
        op_of board o ≡ Some op → RunBy rule board h → 1 ≤ through h o →
        through h o < length (phases_of op) }
    ensures delayed_are_whole { (rule : Rule) (board : Board) (h : List Event) (o : OpId) (on : ℕ)
        (request : Request) →
        DelayedAreSingle board → RunBy rule board h → request_of board o on ≡ Some request →
        is_posted request ≡ false → through h o ≡ 0 }
{}

/// A delayed operation that a lane presents has the lane on its way from its master's bus.
pub fn asked_on_way()
    ensures { (rule : Rule) (board : Board) (h : List Event) (on : ℕ) (lane : BridgeLane) (o : OpId)
        (op : Op) → IsValid board → RunBy rule board h → op_of board o ≡ Some op →
        is_posted (request_on op on) ≡ false
        → wants_by rule board h on (ByLane lane) o ≡ true → AskedWay board lane o }
{}

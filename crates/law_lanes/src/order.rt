//! The order of what is on the lanes of bridges, in every run of every board. Each law is the
//! contract of a function that does nothing.
ghost use Rattle.std.specs.Prelude.{◌≡◌, ◌++◌, ◌+◌, ◌<◌, ◌≤◌, List, [], Some, true, length};
ghost use Rattle.std.specs.Prelude.{slice_get};
ghost use Rattle.std.specs.List.{AllByRecursion};
ghost use Rattle.list_facts.specs.Lists.{total};
ghost use Rattle.pci_command.specs.declared.op_id.OpId.{OpId};
ghost use Rattle.board_model.specs.declared.board.Board.{Board};
ghost use Rattle.board_model.specs.declared.bridge.Lane.{Lane as BridgeLane};
ghost use Rattle.board_model.specs.declared.agents.Master.{Master};
ghost use Rattle.board_model.specs.declared.op.Op.{Op};
ghost use Rattle.board_model.specs.Requests.{op_of, phases_of};
ghost use Rattle.board_model.specs.Ways.{way, lane_back};
ghost use Rattle.board_model.specs.WellFormed.{is_well_formed};
ghost use Rattle.board_model.specs.form_laws.Trees.{IsTree};
ghost use Rattle.history_model.specs.declared.event.Event.{Event};
ghost use Rattle.history_model.specs.World.{world_of};
ghost use Rattle.history_model.specs.Program.{turn_of};
ghost use Rattle.history_model.specs.Words.{through};
ghost use Rattle.history_model.specs.Runs.{Run};
ghost use Rattle.law_lanes.specs.Credits.{room_count};
ghost use Rattle.law_lanes.specs.Depths.{DifferentNumbers};
ghost use Rattle.law_lanes.specs.order.Order.{posts, is_posted_op, entered, left};
ghost use Rattle.law_lanes.specs.order.Sent.{sent, arrivals, came};
ghost use Rattle.law_lanes.specs.order.Counts.{latched, freed};
ghost use Rattle.law_lanes.specs.order.Masters.{MastersWrite};
ghost use Rattle.law_lanes.specs.order.OnWay.{WritesHaveOneClaimant, OnWay};
ghost use Rattle.law_lanes.specs.order.Parts.{WritesAbortWhole, PartsAt};
ghost use Rattle.law_lanes.specs.order.One.{times, ends_at_master, lands_from_master, OnePost};

/// Posted writes keep their order on every lane: those that were accepted at it, in that order, are
/// those that left it, in the order in which they left, then those that stand at its end, and then
/// those in flight.
pub fn posts_keep_their_order()
    ensures { (board : Board) (h : List Event) (lane : BridgeLane) → Run board h →
        entered lane h ≡ left board lane h ++ posts (world_of board h lane).standing ++
        posts (world_of board h lane).flight }
{}

/// What was sent on a lane is what came on it, in the order of sending, and then what is in flight:
/// what came are the first items that were sent, as many as arrived.
pub fn sent_is_received()
    ensures items { (board : Board) (h : List Event) (lane : BridgeLane) → Run board h →
        sent board lane h ≡ came board lane h ++ (world_of board h lane).flight }
    ensures many { (board : Board) (h : List Event) (lane : BridgeLane) → Run board h →
        length (sent board lane h) ≡ arrivals lane h + length (world_of board h lane).flight }
{}

/// What a lane owes is the number of posted writes that were accepted at it, less the credits that
/// came on the lane back; and of the delayed requests that were latched at it, those hold a slot of
/// which no completion was taken or discarded and no word came that they were dropped.
pub fn owed_and_held()
    ensures owed { (board : Board) (h : List Event) (lane : BridgeLane) → Run board h →
        (world_of board h lane).owed + total room_count (came board (lane_back lane) h) ≡
        length (entered lane h) }
    ensures held { (board : Board) (h : List Event) (lane : BridgeLane) → Run board h →
        length (world_of board h lane).held + freed board lane h ≡ latched lane h }
{}

/// A posted write in flight or standing on a lane, as every one that was accepted at it, is a write
/// in memory that its master ended when a bridge accepted it.
pub fn posted_writes_are_masters()
    ensures accepted { (board : Board) (h : List Event) (lane : BridgeLane) → Run board h →
        AllByRecursion (MastersWrite board h) (entered lane h) }
    ensures stands { (board : Board) (h : List Event) (lane : BridgeLane) → Run board h →
        AllByRecursion (MastersWrite board h) (posts (world_of board h lane).standing) }
    ensures flying { (board : Board) (h : List Event) (lane : BridgeLane) → Run board h →
        AllByRecursion (MastersWrite board h) (posts (world_of board h lane).flight) }
{}

/// A master ends each of its operations at most once, and an operation that is its turn did not end
/// before.
pub fn operations_end_once()
    ensures once { (board : Board) (h : List Event) (o : OpId) → Run board h →
        times (ends_at_master o) h ≤ 1 }
    ensures turn { (board : Board) (h : List Event) (o : OpId) → Run board h →
        turn_of board h o.master ≡ Some o → times (ends_at_master o) h ≡ 0 }
{}

/// A write in memory that a bridge accepted from its master landed once, or was lost once (nobody
/// claimed it as a bridge presented it, or its target aborted it), or is one posted write on one
/// lane of the board, and only one of these. Of no other write in memory is there a posted write,
/// and none was lost so; such a write lands at most once, as its master presents it.
pub fn posts_are_one()
    ensures { (board : Board) (h : List Event) (o : OpId) → DifferentNumbers board →
        is_posted_op board o ≡ true → Run board h → OnePost board h o }
{}

/// Each posted write in flight or standing, as every one that was accepted, is on a lane of its
/// way from its master's bus, and only a write whose way is empty lands as its master presents it.
/// It needs no more than a tree of buses, and that all data phases of a write are claimed by whom
/// the first one is, which holds on every well-formed board.
pub fn posts_are_on_their_way()
    ensures accepted { (board : Board) (h : List Event) (lane : BridgeLane) → IsTree board →
        WritesHaveOneClaimant board → Run board h →
        AllByRecursion (OnWay board lane) (entered lane h) }
    ensures stands { (board : Board) (h : List Event) (lane : BridgeLane) → IsTree board →
        WritesHaveOneClaimant board → Run board h →
        AllByRecursion (OnWay board lane) (posts (world_of board h lane).standing) }
    ensures flying { (board : Board) (h : List Event) (lane : BridgeLane) → IsTree board →
        WritesHaveOneClaimant board → Run board h →
        AllByRecursion (OnWay board lane) (posts (world_of board h lane).flight) }
    ensures direct { (board : Board) (h : List Event) (o : OpId) (op : Op) (master : Master) →
        IsTree board → WritesHaveOneClaimant board → op_of board o ≡ Some op →
        slice_get board.masters o.master ≡ Some master → is_posted_op board o ≡ true →
        Run board h → 1 ≤ times (lands_from_master o) h → way board op master.bus ≡ [] }
    ensures well_formed { (board : Board) → is_well_formed board ≡ true →
        WritesHaveOneClaimant board }
{}

/// The rest of a write in memory of which a target took a part waits at its master, whose turn it
/// is, or at the end of a lane as the oldest posted write that stands there, and there a target
/// claims it and does not abort it; or it landed. This needs that all data phases of a write are
/// claimed by whom the first one is, and aborted as it is, which holds on every well-formed board.
/// On any board fewer data phases go through in parts than an operation has, if it has one, as
/// every operation has on a well-formed board: the last ones land.
pub fn parts_wait_for_the_rest()
    ensures waits { (board : Board) (h : List Event) (o : OpId) (op : Op) (master : Master) →
        WritesHaveOneClaimant board → WritesAbortWhole board → op_of board o ≡ Some op →
        slice_get board.masters o.master ≡ Some master → is_posted_op board o ≡ true →
        Run board h → 1 ≤ through h o → PartsAt board h o op master.bus }
    ensures fewer { (board : Board) (h : List Event) (o : OpId) (op : Op) →
        op_of board o ≡ Some op → Run board h → 1 ≤ length (phases_of op) →
        through h o < length (phases_of op) }
    ensures some_phase { (board : Board) (o : OpId) (op : Op) → is_well_formed board ≡ true →
        op_of board o ≡ Some op → 1 ≤ length (phases_of op) }
    ensures well_formed { (board : Board) → is_well_formed board ≡ true → WritesAbortWhole board }
{}

//! The lanes of a bridge have room for all that its two buses send, as each knows by itself: by
//! what it did and what came to it, and before anything is known of any other bus or of the order
//! of their events. Each law is the contract of a function that does nothing.
ghost use Rattle.std.specs.Prelude.{◌≡◌, ◌≢◌, ℕ, ◌+◌, ◌*◌, ◌<◌, ◌≤◌, List, [], ◌++◌, length, Some};
ghost use Rattle.board_model.specs.declared.board.Board.{Board};
ghost use Rattle.board_model.specs.declared.bridge.Bridge.{Bridge};
ghost use Rattle.board_model.specs.declared.bridge.Lane.{Lane as BridgeLane};
ghost use Rattle.board_model.specs.Ways.{start_of, end_of, lane_back};
ghost use Rattle.board_model.specs.Valid.{IsValid};
ghost use Rattle.history_model.specs.declared.event.Event.{Event};
ghost use Rattle.history_model.specs.declared.item.Carried.{Carried};
ghost use Rattle.history_model.specs.World.{both};
ghost use Rattle.history_model.specs.Answers.{bridge_to};
ghost use Rattle.history_model.specs.Local.{local_world, LocalRun};
ghost use Rattle.lane_items.specs.declared.item.Item.{Item};
ghost use Rattle.lane_items.specs.Lane.{GotInOrder, left_count, Crosses};
ghost use Rattle.law_local.specs.room.Sides.{Side, HasDepths};
ghost use Rattle.law_local.specs.room.Room.{TwoRuns, Leaves, HasRoom, Puts, LaneInPhase};
ghost use Rattle.board_model.specs.Limits.{most_in_flight};

/// By what a bus did and what came to it, it has put on a lane that begins there no more than its
/// credits, its slots and what came on the lane back allow.
pub fn buses_keep_their_side()
    ensures { (board : Board) (bus : ℕ) (lane : BridgeLane) (posted delayed : ℕ)
        (came : BridgeLane → List Carried) (p : List Event) →
        IsValid board → HasDepths board lane posted delayed → start_of board lane ≡ bus →
        end_of board lane ≢ bus → came lane ≡ [] →
        LocalRun board bus came p →
        Side posted delayed (came (lane_back lane)) (both (local_world board came p) lane) }
{}

/// Of two buses that each kept its side of their bridge at most as many items are left on each of
/// its lanes as may be in flight: twice as many as it takes posted writes and delayed requests each
/// way.
pub fn lanes_have_room()
    ensures in_limits { (board : Board) (came : ℕ → BridgeLane → List Carried) (part : ℕ → List Event)
        (lane : BridgeLane) (left left_back : List Carried) →
        IsValid board → Leaves board came part lane left left_back →
        HasRoom most_in_flight board came part lane left left_back }
    ensures of_bridge { (board : Board) (came : ℕ → BridgeLane → List Carried)
        (part : ℕ → List Event) (lane : BridgeLane) (left left_back : List Carried)
        (bridge : Bridge) →
        IsValid board → bridge_to board lane.bus ≡ Some bridge →
        Leaves board came part lane left left_back →
        HasRoom (2 * bridge.posted + 2 * bridge.delayed) board came part lane left left_back }
{}

/// A bus whose next event would put one more item on a lane finds fewer left there than may be in
/// flight. So it need not look whether there is room.
pub fn full_lanes_take_no_more()
    ensures { (board : Board) (came : ℕ → BridgeLane → List Carried) (part : ℕ → List Event)
        (lane : BridgeLane) (left left_back : List Carried) (e : Event) →
        IsValid board → Leaves board came part lane left left_back → Puts board came part lane e →
        length left < most_in_flight }
{}

/// So two ends of a bridge may be settled, by what their own two buses did: if on both lanes the
/// items were got in the order of their sending, at most as many are left on each as may be in
/// flight, and fewer where the bus could put one more there.
pub fn settle_has_room()
    ensures at_most { (carries : Item → Carried) (board : Board)
        (came : ℕ → BridgeLane → List Carried) (part : ℕ → List Event) (lane : BridgeLane)
        (before had got sent before_back had_back got_back sent_back : List Item)
        (kept kept_back : ℕ) →
        IsValid board → TwoRuns board came part lane →
        LaneInPhase carries board came part lane before had got sent → LaneInPhase carries board
        came part (lane_back lane) before_back had_back got_back sent_back →
        GotInOrder had got sent kept → GotInOrder had_back got_back sent_back kept_back →
        (left_count had got sent ≤ most_in_flight) × (left_count had_back got_back sent_back ≤ most_in_flight) }
    ensures fewer { (carries : Item → Carried) (board : Board)
        (came : ℕ → BridgeLane → List Carried) (part : ℕ → List Event) (lane : BridgeLane)
        (before had got sent before_back had_back got_back sent_back : List Item)
        (kept kept_back : ℕ) (e : Event) →
        IsValid board → TwoRuns board came part lane →
        LaneInPhase carries board came part lane before had got sent → LaneInPhase carries board
        came part (lane_back lane) before_back had_back got_back sent_back →
        GotInOrder had got sent kept → GotInOrder had_back got_back sent_back kept_back →
        Puts board came part lane e → left_count had got sent < 32 }
{}

/// Where an end got its items in the order of their sending, what it did not get of those that it
/// had or that were sent is one list, and as long as what is left on the lane. And where a lane is
/// settled, its items were got in the order of their sending.
pub fn order_says_what_is_left()
    ensures left { (had got sent : List Item) (kept : ℕ) → GotInOrder had got sent kept →
        (left : List Item) × (got ++ left ≡ had ++ sent) × (length left ≡ left_count had got sent) }
    ensures settled { (had got sent hand : List Item) (kept : ℕ) →
        Crosses had got sent kept hand → GotInOrder had got sent kept }
{}

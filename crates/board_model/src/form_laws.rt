//! What holds of every board: its form by name, its ways and its claims. Each law is the contract
//! of a function that does nothing.
ghost use Rattle.std.specs.Prelude.{◌≡◌, ◌<◌, ℕ, true, Some};
ghost use Rattle.pci_command.specs.declared.request.Request.{Request};
ghost use Rattle.board_model.specs.declared.bridge.Lane.{Lane as BridgeLane};
ghost use Rattle.board_model.specs.declared.op.Op.{Op};
ghost use Rattle.board_model.specs.declared.board.Board.{Board};
ghost use Rattle.board_model.specs.declared.bridge.Window.{Window};
ghost use Rattle.board_model.specs.declared.bridge.Bridge.{Bridge};
ghost use Rattle.board_model.specs.declared.agents.Range.{Range};
ghost use Rattle.board_model.specs.declared.agents.Target.{Target};
ghost use Rattle.board_model.specs.declared.agents.Master.{Master};
ghost use Rattle.board_model.specs.WellFormed.{are_numbered_apart, is_window, IsWindow};
ghost use Rattle.board_model.specs.WellFormed.{is_well_formed_bridge, IsWellFormedBridge};
ghost use Rattle.board_model.specs.WellFormed.{is_block, IsBlock, is_well_formed_target};
ghost use Rattle.board_model.specs.WellFormed.{IsWellFormedTarget, is_well_formed_master};
ghost use Rattle.board_model.specs.WellFormed.{IsWellFormedMaster, is_well_formed, IsWellFormed};
ghost use Rattle.board_model.specs.Valid.{IsValid};
ghost use Rattle.board_model.specs.form_laws.Trees.{IsTree};
ghost use Rattle.board_model.specs.form_laws.WayEnds.{WayEnds, GoesOn, rank};
ghost use Rattle.board_model.specs.form_laws.Turns.{NeverTurnsBack, StartsThere};
ghost use Rattle.board_model.specs.form_laws.Claimants.{OneClaimant};

/// Every way ends: it goes up some bridges, then down some, and takes none twice. A board needs no
/// more for this than bridges to different buses, each to one of a higher number than its primary
/// bus.
pub fn ways_end()
    ensures ends { (board : Board) (op : Op) (on : ℕ) → IsTree board → WayEnds board op on }
    ensures rank_falls { (board : Board) (op : Op) (on : ℕ) (lane next : BridgeLane) →
        IsTree board → GoesOn board op on lane next → rank board next < rank board lane }
    ensures of_valid { (board : Board) → IsValid board → IsTree board }
{}

/// What a lane takes to a bus is not claimed there by the other lane of its bridge, and a lane
/// claims only on the bus where it starts. A board needs no more for this than bridges with
/// different numbers.
pub fn claims_never_turn_back()
    ensures never_back { (board : Board) (op : Op) (on : ℕ) (lane : BridgeLane) →
        are_numbered_apart board.bridges ≡ true → NeverTurnsBack board op on lane }
    ensures starts { (board : Board) (op : Op) (on : ℕ) (lane : BridgeLane) →
        are_numbered_apart board.bridges ≡ true → StartsThere board op on lane }
{}

/// On a valid board at most one of all who decode a request on a bus claims it, and it is the one
/// that `claim` names: nobody where there is none.
pub fn one_claimant()
    ensures { (board : Board) (bus : ℕ) (request : Request) → IsValid board →
        OneClaimant board bus request }
{}

/// A board passes the test of form exactly where each of the named conditions holds.
pub fn well_formed_is_named()
    ensures named { (board : Board) → is_well_formed board ≡ true → IsWellFormed board }
    ensures tested { (board : Board) → IsWellFormed board → is_well_formed board ≡ true }
{}

/// The same of what is on a board: a bridge and its windows, a target and its ranges, and a master.
pub fn parts_are_named()
    ensures bridge_named { (bridge : Bridge) → is_well_formed_bridge bridge ≡ true →
        IsWellFormedBridge bridge }
    ensures bridge_tested { (bridge : Bridge) → IsWellFormedBridge bridge →
        is_well_formed_bridge bridge ≡ true }
    ensures window_named { (unit end : ℕ) (window : Window) →
        is_window unit end (Some window) ≡ true → IsWindow unit end window }
    ensures window_tested { (unit end : ℕ) (window : Window) → IsWindow unit end window →
        is_window unit end (Some window) ≡ true }
    ensures target_named { (target : Target) → is_well_formed_target target ≡ true →
        IsWellFormedTarget target }
    ensures target_tested { (target : Target) → IsWellFormedTarget target →
        is_well_formed_target target ≡ true }
    ensures range_named { (unit end : ℕ) (range : Range) → is_block unit end range ≡ true →
        IsBlock unit end range }
    ensures range_tested { (unit end : ℕ) (range : Range) → IsBlock unit end range →
        is_block unit end range ≡ true }
    ensures master_named { (master : Master) → is_well_formed_master master ≡ true →
        IsWellFormedMaster master }
    ensures master_tested { (master : Master) → IsWellFormedMaster master →
        is_well_formed_master master ≡ true }
{}

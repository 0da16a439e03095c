//! How a delayed request is answered, and what is left of a master's program when one of its
//! operations ends, in every run of every valid board; and lemmas, for the crate above, on what an
//! event of one operation changes of what is left. Each law is the contract of a function that does
//! nothing.
ghost use Rattle.std.specs.Prelude.{◌≡◌, ◌+◌, ◌-◌, ◌*◌, ◌≤◌, ◌∷◌, ℕ, List, drop, Some, true, false};
ghost use Rattle.std.specs.Prelude.{slice_get};
ghost use Rattle.std.specs.List.{list_any};
ghost use Rattle.list_facts.specs.Lists.{total};
ghost use Rattle.pci_command.specs.declared.op_id.OpId.{OpId};
ghost use Rattle.pci_command.specs.declared.op_id.Outcome.{Outcome};
ghost use Rattle.pci_command.specs.Same.{same_op};
ghost use Rattle.board_model.specs.declared.agents.Master.{Master};
ghost use Rattle.board_model.specs.declared.bridge.Lane.{Lane as BridgeLane};
ghost use Rattle.board_model.specs.declared.bridge.Place.{Place};
ghost use Rattle.board_model.specs.declared.bridge.Place.TheVariants.{Lane};
ghost use Rattle.board_model.specs.declared.op.Op.{Op};
ghost use Rattle.board_model.specs.declared.board.Board.{Board};
ghost use Rattle.board_model.specs.Requests.{op_of, request_on, is_posted, tries_of};
ghost use Rattle.board_model.specs.Claims.{claim};
ghost use Rattle.board_model.specs.Ways.{cost_of, cost_of_try, is_lane};
ghost use Rattle.board_model.specs.Valid.{IsValid};
ghost use Rattle.history_model.specs.declared.event.By.{By};
ghost use Rattle.history_model.specs.declared.event.Step.{Step};
ghost use Rattle.history_model.specs.declared.event.Event.{Event};
ghost use Rattle.history_model.specs.declared.event.Event.TheVariants.{Act};
ghost use Rattle.history_model.specs.World.{world_of};
ghost use Rattle.history_model.specs.Program.{follows, turn_of};
ghost use Rattle.history_model.specs.Runs.{Run};
ghost use Rattle.history_model.specs.Left.{is_slot_of, program_left};
ghost use Rattle.law_bound.specs.changes.Steps.{IsEnd};
ghost use Rattle.history_model.specs.Steps.{is_stall};

/// Where no lane claims a delayed request, it ends there, unless a target stalls; and where a lane
/// claims it, that lane answers.
pub fn delayed_answers()
    ensures ends { (board : Board) (h : List Event) (on : ℕ) (by : By) (o : OpId) (op : Op)
        (step : Step) (place : Place) →
        IsValid board → Run board (Act on by o step place ∷ h) → op_of board o ≡ Some op →
        is_posted (request_on op on) ≡ false → is_stall step ≡ false →
        is_lane (claim board on (request_on op on)) ≡ false → IsEnd step ×
        (is_lane place ≡ false) }
    ensures at_lane { (board : Board) (h : List Event) (on : ℕ) (by : By) (o : OpId) (op : Op)
        (step : Step) (place : Place) (lane : BridgeLane) →
        IsValid board → Run board (Act on by o step place ∷ h) → op_of board o ≡ Some op →
        is_posted (request_on op on) ≡ false → is_stall step ≡ false →
        claim board on (request_on op on) ≡ Lane lane → place ≡ Lane lane }
{}

/// A master's turn is one of its own operations; and what follows an operation that ended costs no
/// more than its further tries and the operations behind it, where the master's other operations
/// hold no slot.
pub fn programs_go_on()
    ensures own { (board : Board) (h : List Event) (master : ℕ) (o : OpId) →
        turn_of board h master ≡ Some o → o.master ≡ master }
    ensures next { (board : Board) (h : List Event) (o : OpId) (op : Op) (master : Master)
        (outcome : Outcome) →
        IsValid board → op_of board o ≡ Some op → slice_get board.masters o.master ≡ Some master →
        ((q : OpId) → q.master ≡ o.master → same_op o q ≡ false → (lane : BridgeLane) →
        list_any (is_slot_of q) (world_of board h lane).held ≡ false) →
        program_left board h master (follows board (record { op = o; outcome = outcome })) ≤
        (tries_of op - (o.attempt + 1)) * cost_of_try board master.bus op +
        total (cost_of board master.bus) (drop (o.index + 1) master.ops) }
{}

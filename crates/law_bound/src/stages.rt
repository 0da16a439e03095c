//! How far the lanes of its way have brought a delayed request, and what is left of it, in every
//! run of every valid board. The law is the contract of a function that does nothing.
ghost use Rattle.std.specs.Prelude.{◌≡◌, ◌+◌, ◌*◌, List, Some, length, slice_get};
ghost use Rattle.list_facts.specs.Lists.{total};
ghost use Rattle.pci_command.specs.declared.op_id.OpId.{OpId};
ghost use Rattle.board_model.specs.declared.agents.Master.{Master};
ghost use Rattle.board_model.specs.declared.op.Op.{Op};
ghost use Rattle.board_model.specs.declared.board.Board.{Board};
ghost use Rattle.board_model.specs.Requests.{op_of};
ghost use Rattle.board_model.specs.Ways.{way};
ghost use Rattle.board_model.specs.Valid.{IsValid};
ghost use Rattle.history_model.specs.declared.event.Event.{Event};
ghost use Rattle.history_model.specs.World.{world_of};
ghost use Rattle.history_model.specs.Runs.{Run};
ghost use Rattle.history_model.specs.Left.{delayed_left};
ghost use Rattle.law_bound.specs.stages.Stages.{stage_at};

/// What is left of a delayed request is five for each lane of its way from its master's bus and one
/// more, less how far each of these lanes has brought it.
pub fn stages_and_left()
    ensures { (board : Board) (h : List Event) (o : OpId) (op : Op) (master : Master) →
        IsValid board → Run board h → op_of board o ≡ Some op →
        slice_get board.masters o.master ≡ Some master →
        delayed_left (world_of board h) o (way board op master.bus) + total (stage_at board op o
        (world_of board h)) (way board op master.bus) ≡ 5 * length (way board op master.bus) + 1 }
{}

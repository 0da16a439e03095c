//! The order of what lands in a word, in every run of every valid board: a write that was told of
//! another lands after it. The law is the contract of a function that does nothing.
ghost use Rattle.std.specs.Prelude.{◌≡◌, List, Contains, true, false};
ghost use Rattle.pci_command.specs.declared.op_id.OpId.{OpId};
ghost use Rattle.pci_command.specs.Same.{same_op};
ghost use Rattle.board_model.specs.declared.board.Board.{Board};
ghost use Rattle.board_model.specs.Requests.{reads};
ghost use Rattle.board_model.specs.Ways.{Dword};
ghost use Rattle.board_model.specs.Valid.{IsValid};
ghost use Rattle.history_model.specs.declared.event.Event.{Event};
ghost use Rattle.history_model.specs.Words.{landed};
ghost use Rattle.history_model.specs.Runs.{Run};
ghost use Rattle.history_model.specs.Knowledge.{words_named, Told};
ghost use Rattle.law_lanes.specs.order.Order.{is_posted_op};
ghost use Rattle.law_safe.specs.writes.InOrder.{StandsBehind, NoneBehind};

/// Where a write was told to another write, and names the word, each data phase that the other
/// brings to the word lands behind one of it; and where it is posted, none of it lands behind one
/// of the other.
pub fn writes_in_order()
    ensures first { (board : Board) (h : List Event) (w : OpId) (x : OpId) (word : Dword) →
        IsValid board → Run board h → Told board h w x → same_op x w ≡ false →
        reads board x ≡ false → Contains (words_named board w) word →
        StandsBehind w x false (landed board h word) }
    ensures last { (board : Board) (h : List Event) (w : OpId) (x : OpId) (word : Dword) →
        IsValid board → Run board h → Told board h w x → same_op x w ≡ false →
        reads board x ≡ false → Contains (words_named board w) word →
        is_posted_op board w ≡ true → NoneBehind w x false (landed board h word) }
{}

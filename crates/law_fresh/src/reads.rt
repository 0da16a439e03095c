//! What reads return, in every run of every valid board. The law is the contract of a function that
//! does nothing.
ghost use Rattle.std.specs.Prelude.{List};
ghost use Rattle.board_model.specs.declared.board.Board.{Board};
ghost use Rattle.board_model.specs.Valid.{IsValid};
ghost use Rattle.history_model.specs.declared.event.Event.{Event};
ghost use Rattle.history_model.specs.Runs.{Run};
ghost use Rattle.law_fresh.specs.reads.Returns.{ReadsReturn};

/// Every read returned what it last read at its target, and every read of a word that ended has
/// read there.
pub fn reads_return()
    ensures { (board : Board) (h : List Event) → IsValid board → Run board h → ReadsReturn board h }
{}

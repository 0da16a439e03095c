//! What a read returns of what landed in its word, in every run of every valid board. The law is
//! the contract of a function that does nothing.
ghost use Rattle.std.specs.Prelude.{List};
ghost use Rattle.board_model.specs.declared.board.Board.{Board};
ghost use Rattle.board_model.specs.Valid.{IsValid};
ghost use Rattle.history_model.specs.declared.event.Event.{Event};
ghost use Rattle.history_model.specs.Runs.{Run};
ghost use Rattle.law_delivered.specs.left.Left.{ReturnsAsLeft, ReturnsAsHeld};

/// A read that was told of a write, and read a word of it, returned the word as that write, or
/// what landed later, left it. And every read that read at a target returned what the word held
/// then, told or not.
pub fn reads_return_what_was_left()
    ensures left { (board : Board) (h : List Event) → IsValid board →
        Run board h → ReturnsAsLeft board h }
    ensures held { (board : Board) (h : List Event) → IsValid board →
        Run board h → ReturnsAsHeld board h }
{}

//! The tables of clocks that are consistent for a board: with two of them the greater one is. The
//! law is the contract of a function that does nothing.
ghost use Rattle.board_model.specs.declared.board.Board.{Board};
ghost use Rattle.safe_model.specs.Clocks.{Table, IsConsistent, greater_of};

/// The greater of two consistent tables is consistent: by a greater table more comes before, so
/// more raisers are left out.
pub fn greater_is_consistent()
    ensures { (board : Board) (a : Table) (b : Table) → IsConsistent board a →
        IsConsistent board b → IsConsistent board (greater_of a b) }
{}

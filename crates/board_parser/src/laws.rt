ghost use Rattle.std.specs.Prelude.{◌≡◌, ℕ, List, Ok, true};
ghost use Rattle.board_model.specs.declared.board.Board.{Board};
ghost use Rattle.board_model.specs.WellFormed.{is_well_formed};
ghost use Rattle.board_parser.specs.Boards.{board_read};

/// The law of what is read: a board that a text reads as is well formed.
pub fn read_is_well_formed()
    ensures { (text : List ℕ) (board : Board) → board_read text ≡ Ok board →
        is_well_formed board ≡ true }
{}

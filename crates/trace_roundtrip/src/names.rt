//! The words of operations and targets in a trace are read as what they name, and numbers as they
//! are printed. Each law is the contract of a function that does nothing.
ghost use Rattle.std.specs.Prelude.{◌≡◌, ◌<◌, ◌≤◌, ◌^◌, ℕ, Some, true, false, is_some, length};
ghost use Rattle.std.specs.Fmt.{decimal};
ghost use Rattle.pci_command.specs.declared.op_id.OpId.{OpId};
ghost use Rattle.board_model.specs.declared.board.Board.{Board};
ghost use Rattle.board_model.specs.Requests.{op_of};
ghost use Rattle.board_model.specs.WellFormed.{is_well_formed};
ghost use Rattle.board_roundtrip.specs.words.Printed.{is_word};
ghost use Rattle.board_model.specs.Fits.{BoardFits};
ghost use Rattle.trace_text.specs.Words.{op_word, target_name};
ghost use Rattle.trace_reader.specs.lines.Words.{number_of, target_in, op_in, begins_header};

/// The word of an operation is read as the operation, and is a word of at most 44 bytes.
pub fn operations_are_read()
    ensures read { (board : Board) (o : OpId) → BoardFits board → is_well_formed board ≡ true →
        o.master < 2 ^ 16 → is_some (op_of board o) ≡ true →
        op_in board (op_word board o) ≡ Some o }
    ensures word { (board : Board) (o : OpId) → BoardFits board → is_well_formed board ≡ true →
        o.master < 2 ^ 16 → is_some (op_of board o) ≡ true → is_word (op_word board o) ≡ true }
    ensures short { (board : Board) (o : OpId) → BoardFits board → is_well_formed board ≡ true →
        o.master < 2 ^ 16 → is_some (op_of board o) ≡ true → length (op_word board o) ≤ 44 }
{}

/// The name of a target is read as the target; it is a word of at most 16 bytes that is no
/// header's.
pub fn targets_are_read()
    ensures read { (board : Board) (index : ℕ) → BoardFits board → is_well_formed board ≡ true →
        index < 2 ^ 16 → index < length board.targets →
        target_in board (target_name board index) ≡ Some index }
    ensures word { (board : Board) (index : ℕ) → BoardFits board → is_well_formed board ≡ true →
        index < 2 ^ 16 → index < length board.targets → is_word (target_name board index) ≡ true }
    ensures short { (board : Board) (index : ℕ) → BoardFits board → is_well_formed board ≡ true →
        index < 2 ^ 16 → index < length board.targets → length (target_name board index) ≤ 16 }
    ensures no_header { (board : Board) (index : ℕ) → BoardFits board →
        is_well_formed board ≡ true → index < 2 ^ 16 → index < length board.targets →
        begins_header (target_name board index) ≡ false }
{}

/// A number is read as it is printed: its word has at most ten bytes.
pub fn numbers_are_read()
    ensures read { (n : ℕ) → n < 2 ^ 32 → number_of (decimal n) ≡ Some n }
    ensures short { (n : ℕ) → n < 2 ^ 32 → length (decimal n) ≤ 10 }
{}

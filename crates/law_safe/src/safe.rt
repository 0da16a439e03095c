//! What a read returns in every run of every valid board, from the programs of the board alone. The
//! law is the contract of a function that does nothing.
ghost use Rattle.std.specs.Prelude.{◌≡◌, ℕ, List, Some, true};
ghost use Rattle.pci_command.specs.declared.op_id.OpId.{OpId};
ghost use Rattle.board_model.specs.declared.board.Board.{Board};
ghost use Rattle.board_model.specs.Valid.{IsValid};
ghost use Rattle.history_model.specs.declared.event.Event.{Event};
ghost use Rattle.history_model.specs.Runs.{Run};
ghost use Rattle.history_model.specs.Knowledge.{has_ended, given_value};
ghost use Rattle.safe_model.specs.Clocks.{Table, IsConsistent};
ghost use Rattle.safe_model.specs.Safe.{IsSafe};

/// A read that is safe with a value returns it in every run in which it ends.
pub fn safe_reads_return()
    ensures { (board : Board) (table : Table) (h : List Event) (r : OpId) (value : ℕ) →
        IsValid board → IsConsistent board table → IsSafe board table r value → Run board h →
        has_ended h r ≡ true → given_value h r ≡ Some value }
{}

//! The largest consistent table of clocks of a board: it is judged by tests over the operations of
//! the board. The law is the contract of a function that does nothing.
ghost use Rattle.std.specs.Prelude.{◌≡◌, ◌≤◌, ◌↔◌, ℕ, true};
ghost use Rattle.pci_command.specs.declared.op_id.OpId.{OpId};
ghost use Rattle.board_model.specs.declared.board.Board.{Board};
ghost use Rattle.board_model.specs.Requests.{op_of};
ghost use Rattle.safe_model.specs.Clocks.{Table, is_poll, IsConsistent};
ghost use Rattle.safe_model.specs.largest.Tests.{most_known};
ghost use Rattle.safe_model.specs.largest.Largest.{IsWithin};

/// A table that counts no more operations than there are is consistent exactly where it says of
/// each poll at most what the tests say may be known behind it.
pub fn consistent_by_tests()
    ensures { (board : Board) (table : Table) → IsWithin board table →
        IsConsistent board table ↔ ((p : OpId) → is_poll (op_of board p) ≡ true → (other : ℕ) →
        table p.master p.index other ≤ most_known board table p other) }
{}

//! What the programs of a board put in order comes in that order in every run. A table of clocks
//! that is consistent says of each operation how many of each master's operations it comes after:
//! those before it in its program, and, behind a poll, those that every write comes after that can
//! meet the poll. The laws are the contracts of functions that do nothing.
ghost use Rattle.std.specs.Prelude.{◌≡◌, List, Some, true, false};
ghost use Rattle.std.specs.List.{list_any};
ghost use Rattle.pci_command.specs.declared.op_id.OpId.{OpId};
ghost use Rattle.board_model.specs.declared.board.Board.{Board};
ghost use Rattle.board_model.specs.Requests.{op_of};
ghost use Rattle.board_model.specs.Valid.{IsValid};
ghost use Rattle.history_model.specs.declared.event.Event.{Event};
ghost use Rattle.history_model.specs.Words.{landed};
ghost use Rattle.history_model.specs.Runs.{Run};
ghost use Rattle.history_model.specs.Knowledge.{Reading, got, is_landing_of, is_write, Told};
ghost use Rattle.safe_model.specs.Clocks.{Table, is_poll, IsConsistent, IsBefore};

/// A write that comes before a read by a consistent table was told to it in every run in which it
/// got something.
pub fn before_is_told()
    ensures { (board : Board) (table : Table) (h : List Event) (w : OpId) (r : OpId)
        (reading : Reading) →
        IsValid board → IsConsistent board table → Run board h → is_write board w ≡ true →
        IsBefore board table w r → got board h r ≡ Some reading → Told board h w r }
{}

/// Where a read, which is no poll, comes before an operation, that has brought no data phase to the
/// word before the read read it.
pub fn after_is_not_seen()
    ensures { (board : Board) (table : Table) (h : List Event) (w : OpId) (r : OpId)
        (reading : Reading) →
        IsValid board → IsConsistent board table → Run board h → is_poll (op_of board r) ≡ false →
        IsBefore board table r w → got board h r ≡ Some reading →
        list_any (is_landing_of w) (landed board reading.before reading.word) ≡ false }
{}

//! Which operations reach a word, in every run of every valid board: a write that is said to be lost
//! does not, nor does a read or a poll that is said to read nowhere; and a write that has a word
//! lands. The laws are the contracts of functions that do nothing.
ghost use Rattle.std.specs.Prelude.{◌≡◌, ◌≢◌, Bool, List, [], Some, None, true, false};
ghost use Rattle.std.specs.List.{list_any};
ghost use Rattle.pci_command.specs.declared.op_id.OpId.{OpId};
ghost use Rattle.board_model.specs.declared.board.Board.{Board};
ghost use Rattle.board_model.specs.Ways.{Dword};
ghost use Rattle.board_model.specs.Valid.{IsValid};
ghost use Rattle.history_model.specs.declared.event.Event.{Event};
ghost use Rattle.history_model.specs.Words.{landed};
ghost use Rattle.history_model.specs.Runs.{Run, Complete};
ghost use Rattle.history_model.specs.Knowledge.{has_ended, has_landed, is_landing_of, is_write};
ghost use Rattle.history_model.specs.Knowledge.{last_reading, words_named};
ghost use Rattle.safe_model.specs.Clocks.{Table, at_place};
ghost use Rattle.safe_model.specs.said.Said.{lost, nowhere, said_of};

/// A write that is said to be lost lands in no word, whatever the table.
pub fn lost_never_lands()
    ensures { (board : Board) (table : Table) (h : List Event) (w : OpId) (aborted : Bool)
        (word : Dword) → IsValid board → Run board h →
        said_of board table w ≡ Some (lost aborted) →
        list_any (is_landing_of w) (landed board h word) ≡ false }
{}

/// A read that is said to read nowhere, or any try of such a poll, reads no word, whatever the
/// table.
pub fn nowhere_never_reads()
    ensures { (board : Board) (table : Table) (h : List Event) (r : OpId) (aborted : Bool) →
        IsValid board → Run board h →
        said_of board table (at_place r.master r.index) ≡ Some (nowhere aborted) →
        last_reading board r h ≡ None }
{}

/// A write that has a word, and has ended, has landed once the run is complete.
pub fn ended_writes_land()
    ensures { (board : Board) (h : List Event) (w : OpId) → IsValid board → Run board h →
        Complete board h → is_write board w ≡ true → words_named board w ≢ [] →
        has_ended h w ≡ true → has_landed h w ≡ true }
{}

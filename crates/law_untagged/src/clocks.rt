//! What each master knows of all writes on bridges that keep no local master, by one number for
//! each author: who was told of a write was told of all that its author wrote before it. Each law
//! is the contract of a function that does nothing.
ghost use Rattle.std.specs.Prelude.{◌≡◌, true, List, ◌∷◌, ◌++◌, Some};
ghost use Rattle.pci_command.specs.declared.op_id.OpId.{OpId};
ghost use Rattle.board_model.specs.declared.board.Board.{Board};
ghost use Rattle.history_model.specs.declared.event.Event.{Event};
ghost use Rattle.history_model.specs.Program.{Ending, ended};
ghost use Rattle.history_model.specs.Knowledge.{Reading, has_landed, is_write};
ghost use Rattle.law_untagged.specs.Untagged.{UntaggedRun};
ghost use Rattle.law_untagged.specs.Origins.{ending_reading};
ghost use Rattle.law_untagged.specs.Heard.{untagged_was_told};
ghost use Rattle.law_audit.specs.Clocks.{reaches};
ghost use Rattle.law_untagged.specs.clocks.Clocks.{clocks_of};

/// A read that its master ended, and which got a reading, was told of a write exactly where what
/// its master knows as of that end reaches the write; what happens later changes nothing of it.
pub fn told_by_clocks()
    ensures { (board : Board) (later : List Event) (e : Event) (h : List Event) (ending : Ending)
        (reading : Reading) (w : OpId) →
        UntaggedRun board (later ++ e ∷ h) → is_write board w ≡ true → ended e ≡ Some ending →
        ending_reading board h e ≡ Some reading →
        untagged_was_told board (later ++ e ∷ h) w ending.op ≡
        reaches ((clocks_of board (e ∷ h)).known ending.op.master) w }
{}

/// What a write tells is settled as it lands: what its author knew as it first presented the write
/// stays the same at each event behind that.
pub fn landed_starts_stay()
    ensures { (board : Board) (e : Event) (h : List Event) (w : OpId) →
        UntaggedRun board (e ∷ h) → has_landed h w ≡ true →
        (clocks_of board (e ∷ h)).start w ≡ (clocks_of board h).start w }
{}

//! What is said of the operations of a board, by its largest consistent table of clocks, is so in
//! every run. The laws are the contracts of functions that do nothing.
ghost use Rattle.std.specs.Prelude.{◌≡◌, ℕ, List, ◌∷◌, Some, true, false};
ghost use Rattle.pci_command.specs.declared.op_id.OpId.{OpId};
ghost use Rattle.pci_command.specs.declared.op_id.Outcome.{Outcome};
ghost use Rattle.board_model.specs.declared.op.Want.{Want};
ghost use Rattle.board_model.specs.declared.bridge.Place.{Place};
ghost use Rattle.board_model.specs.declared.board.Board.{Board};
ghost use Rattle.board_model.specs.Ways.{Dword};
ghost use Rattle.board_model.specs.Valid.{IsValid};
ghost use Rattle.history_model.specs.declared.event.By.{By};
ghost use Rattle.history_model.specs.declared.event.Step.{Step};
ghost use Rattle.history_model.specs.declared.event.Event.{Event};
ghost use Rattle.history_model.specs.declared.event.Event.TheVariants.{Act};
ghost use Rattle.history_model.specs.Program.{ended, meets};
ghost use Rattle.history_model.specs.Runs.{Run};
ghost use Rattle.history_model.specs.Knowledge.{Reading, got, has_ended, given_value};
ghost use Rattle.safe_model.specs.Clocks.{Table, at_place, Awaits};
ghost use Rattle.safe_model.specs.largest.Tests.{is_reached};
ghost use Rattle.safe_model.specs.largest.Largest.{IsLargest};
ghost use Rattle.safe_model.specs.said.Said.{safe, vain, said_of};

/// A read that is said to be safe with a word and a value reads that word, and returns the value,
/// in every run in which it ends.
pub fn said_safe_returns()
    ensures { (board : Board) (table : Table) (h : List Event) (r : OpId) (word : Dword)
        (value : ℕ) → IsValid board → IsLargest board table →
        said_of board table r ≡ Some (safe word value) → Run board h → has_ended h r ≡ true →
        (reading : Reading) × (got board h r ≡ Some reading) × (reading.word ≡ word)
        × (given_value h r ≡ Some value) }
{}

/// No try of a poll that is said to be vain ends with a value that meets it.
pub fn said_vain_is_not_met()
    ensures { (board : Board) (table : Table) (e : Event) (h : List Event) (p : OpId)
        (want : Want) (outcome : Outcome) → IsValid board → IsLargest board table →
        said_of board table (at_place p.master p.index) ≡ Some vain → Awaits board p want →
        Run board (e ∷ h) → ended e ≡ Some (record { op = p; outcome = outcome }) →
        meets want outcome ≡ false }
{}

/// No run has an event of an operation that is not reached, so that nothing is said of it.
pub fn unreached_is_never_done()
    ensures { (board : Board) (table : Table) (h : List Event) (o : OpId) (on : ℕ) (by : By)
        (step : Step) (place : Place) → IsValid board → IsLargest board table →
        is_reached board table o ≡ false → Run board (Act on by o step place ∷ h) → ⊥ }
{}

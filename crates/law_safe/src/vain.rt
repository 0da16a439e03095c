//! What no run of a valid board does, from the programs of the board alone: an operation that by a
//! consistent table of clocks comes before itself, and a poll that nothing can meet. The laws are
//! the contracts of functions that do nothing.
ghost use Rattle.std.specs.Prelude.{◌≡◌, ℕ, List, ◌∷◌, Some, false};
ghost use Rattle.pci_command.specs.declared.op_id.OpId.{OpId};
ghost use Rattle.pci_command.specs.declared.op_id.Outcome.{Outcome};
ghost use Rattle.board_model.specs.declared.op.Want.{Want};
ghost use Rattle.board_model.specs.declared.bridge.Place.{Place};
ghost use Rattle.board_model.specs.declared.board.Board.{Board};
ghost use Rattle.board_model.specs.Valid.{IsValid};
ghost use Rattle.history_model.specs.declared.event.By.{By};
ghost use Rattle.history_model.specs.declared.event.Step.{Step};
ghost use Rattle.history_model.specs.declared.event.Event.{Event};
ghost use Rattle.history_model.specs.declared.event.Event.TheVariants.{Act};
ghost use Rattle.history_model.specs.Program.{ended, meets};
ghost use Rattle.history_model.specs.Runs.{Run};
ghost use Rattle.safe_model.specs.Clocks.{Table, IsConsistent, IsBefore};
ghost use Rattle.safe_model.specs.Vain.{IsVain};

/// No run has an event of an operation that comes before itself.
pub fn unreached_has_no_event()
    ensures { (board : Board) (table : Table) (h : List Event) (o : OpId) (on : ℕ) (by : By)
        (step : Step) (place : Place) → IsValid board → IsConsistent board table →
        IsBefore board table o o → Run board (Act on by o step place ∷ h) → ⊥ }
{}

/// No try of a poll that is vain ends with a value that meets it.
pub fn vain_poll_is_not_met()
    ensures { (board : Board) (table : Table) (e : Event) (h : List Event) (p : OpId)
        (want : Want) (outcome : Outcome) → IsValid board → IsConsistent board table →
        IsVain board table p want → Run board (e ∷ h) →
        ended e ≡ Some (record { op = p; outcome = outcome }) → meets want outcome ≡ false }
{}

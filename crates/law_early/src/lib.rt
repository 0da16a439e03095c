//! Nobody who taps a bus sees an arrival. It need not be seen: where any placing of arrivals among
//! the acts on the buses makes a run, the earliest does. Each law is the contract of a function
//! that does nothing.
#![tactic(auto)]

ghost use Rattle.std.specs.Prelude.{◌≡◌, ℕ, List, ◌∷◌};
ghost use Rattle.board_model.specs.declared.board.Board.{Board};
ghost use Rattle.board_model.specs.Ways.{Dword};
ghost use Rattle.board_model.specs.Valid.{IsValid};
ghost use Rattle.history_model.specs.declared.event.Event.{Event};
ghost use Rattle.history_model.specs.Program.{turn_of};
ghost use Rattle.history_model.specs.Words.{value_of};
ghost use Rattle.history_model.specs.declared.rule.Rule.{Rule};
ghost use Rattle.history_model.specs.declared.rule.Rule.TheVariants.{Tagged};
ghost use Rattle.history_model.specs.Runs.{AllowedBy, RunBy, Run, Complete};
ghost use Rattle.law_early.specs.Early.{acts_of, filled, AllArrive, NothingFlies, RunsEarly};

/// After any run of any board all that is in flight arrives in two rounds, and that is a run.
pub fn all_arrives()
    ensures { (rule : Rule) (board : Board) (h : List Event) →
        RunBy rule board h → AllArrive rule board h }
{}

/// On every valid board, whatever lines it has that drop requests and discard completions: the acts
/// of a run, with all that each puts in flight arriving at once, are a run. It is complete if the
/// run was, with the same turns and the same values in all words; and where an act is not allowed
/// next, after any run of the acts before it with nothing in flight, no run has these acts and then
/// this one. So it is under either rule of the bridge: a mark counts the arrivals of a lane, which
/// come in one order whenever they do, and a slot that is free sooner keeps nobody from anything.
pub fn early_arrivals_suffice_on_valid_boards()
    ensures runs { (rule : Rule) (board : Board) (h : List Event) → IsValid board →
        RunBy rule board h → RunsEarly rule board (acts_of h) }
    ensures complete { (board : Board) (h : List Event) → IsValid board → Run board h →
        Complete board h → Complete board (filled Tagged board (acts_of h)) }
    ensures complete_in_any_order { (board : Board) (h k : List Event) → IsValid board →
        Run board h → Run board k → NothingFlies Tagged board k → acts_of h ≡ acts_of k →
        Complete board h → Complete board k }
    ensures refused { (rule : Rule) (board : Board) (h acts : List Event) (act : Event) →
        IsValid board → RunBy rule board h → acts_of h ≡ act ∷ acts →
        AllowedBy rule board (filled rule board acts) act }
    ensures in_any_order { (rule : Rule) (board : Board) (h k : List Event) (act : Event) →
        IsValid board → RunBy rule board h → RunBy rule board k → NothingFlies rule board k →
        acts_of h ≡ act ∷ acts_of k → AllowedBy rule board k act }
    ensures turns { (rule : Rule) (board : Board) (h : List Event) (master : ℕ) →
        IsValid board → RunBy rule board h →
        turn_of board (filled rule board (acts_of h)) master ≡ turn_of board h master }
    ensures words { (rule : Rule) (board : Board) (h : List Event) (word : Dword) →
        IsValid board → RunBy rule board h →
        value_of board (filled rule board (acts_of h)) word ≡ value_of board h word }
{}

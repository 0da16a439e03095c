//! Runs end: each event of a run of a valid board lowers how many can still follow, so that a run
//! has at most as many events as the board's bound. Each law is the contract of a function that
//! does nothing, or that only calls the laws which it rests on.
#![tactic(auto)]

ghost use Rattle.std.specs.Prelude.{◌≡◌, ◌+◌, ◌++◌, ◌∷◌, ◌≤◌, List, [], length, true};
ghost use Rattle.board_model.specs.declared.board.Board.{Board};
ghost use Rattle.board_model.specs.Ways.{bound_of};
ghost use Rattle.board_model.specs.WellFormed.{is_well_formed};
ghost use Rattle.board_model.specs.Valid.{IsValid};
ghost use Rattle.history_model.specs.declared.event.Event.{Event};
ghost use Rattle.history_model.specs.Runs.{Run};
ghost use Rattle.history_model.specs.Left.{left_of};
ghost use Rattle.law_bound.specs.Begins.{Begins};

pub mod changes;
mod delayed;
mod posted;
pub mod reach;
mod stages;

pub use changes::{delayed_answers, programs_go_on};
pub use delayed::delayed_events_lower_left;
pub use posted::posted_events_lower_left;
pub use reach::slots_reach;
pub use stages::stages_and_left;

/// Before the first event as many are left as a run of the board has at most. A board needs no more
/// for this than programs that begin with an operation that is tried at least once, and discards
/// and drops that count from 1; so it is on every well-formed board.
pub fn left_at_first()
    ensures begins { (board : Board) → Begins board → left_of board [] ≡ bound_of board }
    ensures well_formed { (board : Board) → is_well_formed board ≡ true →
        left_of board [] ≡ bound_of board }
{}

/// Each event of a run of a valid board lowers what is left by at least one.
pub fn left_falls()
    ensures { (board : Board) (h : List Event) (e : Event) → IsValid board → Run board (e ∷ h) →
        left_of board (e ∷ h) + 1 ≤ left_of board h }
{
    posted_events_lower_left();
    delayed_events_lower_left();
}

/// So at most as many events follow as are left, and a run has at most as many as the board's
/// bound.
pub fn runs_end()
    ensures follow { (board : Board) (later h : List Event) → IsValid board →
        Run board (later ++ h) → length later + left_of board (later ++ h) ≤ left_of board h }
    ensures bounded { (board : Board) (h : List Event) → IsValid board → Run board h →
        length h ≤ bound_of board }
{
    left_falls();
}

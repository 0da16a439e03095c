//! Bridges that keep no local master with a delayed request: any master on the same side that
//! presents the same request may take the completion (PCI-to-PCI Bridge Architecture Specification
//! 1.1, chapter 5, Delayed Transactions; from memory). On which boards that makes no difference,
//! and on the others which reads of a run come out stale. Each law is the contract of a function
//! that does nothing, or that only calls the laws which it rests on.
#![tactic(auto)]

ghost use Rattle.std.specs.Prelude.{◌≡◌, ◌↔◌, ◌∷◌, [], List, ℕ, Some, None, Contains};
ghost use Rattle.std.specs.Prelude.{take, length, false, true};
ghost use Rattle.pci_command.specs.declared.op_id.OpId.{OpId};
ghost use Rattle.board_model.specs.declared.board.Board.{Board};
ghost use Rattle.board_model.specs.Valid.{IsValid};
ghost use Rattle.history_model.specs.declared.event.Event.{Event};
ghost use Rattle.history_model.specs.Runs.{Run, history_of};
ghost use Rattle.law_untagged.specs.Untagged.{UntaggedRun};
ghost use Rattle.law_untagged.specs.Apart.{Apart};
ghost use Rattle.law_untagged.specs.ApartTest.{is_apart};
ghost use Rattle.law_untagged.specs.Origins.{UntaggedTold, UntaggedFresh};
ghost use Rattle.law_untagged.specs.Heard.{untagged_was_told};
ghost use Rattle.law_untagged.specs.Stale.{StaleRead, Breaks, breaks, stale_of, reads_listed};
ghost use Rattle.law_untagged.specs.Sound.{SoundRun};
ghost use Rattle.law_untagged.specs.Worked.{taken_board, taken_events};

pub mod clocks;

pub use clocks::{landed_starts_stay, told_by_clocks};
use law_delivered::laws_of_runs;

/// On a board on which masters are apart, bridges that keep no local master have the very same
/// runs.
pub fn apart_runs_are_alike()
    ensures { (board : Board) (h : List Event) → IsValid board → Apart board →
        UntaggedRun board h ↔ Run board h }
{}

/// So what holds of every run holds of each such run: it is fresh and matched, reads return their
/// words as what they were told of, or what landed later, left them, it has at most as many events
/// as the board's bound, and no stale read.
pub fn apart_runs_are_sound()
    ensures { (board : Board) (h : List Event) → IsValid board → Apart board →
        UntaggedRun board h → SoundRun board h }
{
    laws_of_runs();
}

/// Masters are apart on a valid board exactly where no two operations of two of them meet.
pub fn apart_is_tested()
    ensures { (board : Board) → IsValid board → (is_apart board ≡ true) ↔ Apart board }
{}

/// On bridges that keep no local master, who was told of a write by a chain is who knows of it
/// event by event.
pub fn told_is_known()
    ensures { (board : Board) (h : List Event) (w r : OpId) → UntaggedRun board h →
        UntaggedTold board h w r ↔ (untagged_was_told board h w r ≡ true) }
{}

/// A read breaks freshness for a write, by the test that makes the list of stale reads, exactly
/// where it was told of the write and got a word of it from a reading before the write had landed;
/// and the list is empty exactly of a fresh run.
pub fn stale_reads_break_freshness()
    ensures each { (board : Board) (h : List Event) (w r : OpId) → UntaggedRun board h →
        (breaks board h w r ≡ true) ↔ Breaks board h w r }
    ensures all { (board : Board) (h : List Event) → UntaggedRun board h →
        UntaggedFresh board h ↔ (stale_of board h ≡ []) }
{}

/// The list is exact: a read is in it exactly where it breaks freshness for some write.
pub fn stale_reads_are_listed()
    ensures { (board : Board) (h : List Event) (r : OpId) → UntaggedRun board h →
        Contains (reads_listed board h) r ↔ ((w : OpId) × Breaks board h w r) }
{}

/// The read that was given what another master's request had read before: it was told of the write.
pub fn taken_is_stale()
    ensures { stale_of taken_board (history_of taken_events) ≡
        record {
          read = record { master = 2; index = 1; attempt = 0 };
          write = record { master = 0; index = 0; attempt = 0 };
          event = 3;
        } ∷ [] }
{}

/// A completion that the wrong master takes.
pub fn taken_by_another()
    ensures run { UntaggedRun taken_board (history_of taken_events) }
    ensures none_before { Run taken_board (history_of (take 9 taken_events)) }
    ensures none { Run taken_board (history_of (take 10 taken_events)) → ⊥ }
{}

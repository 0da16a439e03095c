//! The rule of producer and consumer, in every run of every valid board. A producer writes data and
//! then sets a flag; a consumer that has read the flag as it was set, and each one that it tells in
//! turn by writes of its own, reads the data after the producer's write has landed, over any number
//! of bridges, flags and masters. It holds as neither a read's completion nor a request passes an
//! older posted write: word of a write never comes to a bus before the write that it tells of. Each
//! law is the contract of a function that does nothing. The proof follows one write: who knows of
//! it is on a bus from which it has landed, or is posted on a lane of its way, or comes behind it
//! on its own lane (`Informed` in `specs/Cover.antt`).
#![tactic(auto)]

ghost use Rattle.std.specs.Prelude.{◌≡◌, List, true};
ghost use Rattle.pci_command.specs.declared.op_id.OpId.{OpId};
ghost use Rattle.board_model.specs.declared.board.Board.{Board};
ghost use Rattle.board_model.specs.Valid.{IsValid};
ghost use Rattle.history_model.specs.declared.event.Event.{Event};
ghost use Rattle.history_model.specs.Runs.{Run};
ghost use Rattle.history_model.specs.Knowledge.{Fresh, Told};
ghost use Rattle.law_fresh.specs.Told.{was_told};

pub mod reads;

pub use reads::reads_return;

/// Every run of every valid board is fresh: every read that was told of a write, and reads a word
/// of it, reads after the write has landed; every read returned what it last read at its target;
/// and every read of a word that ended has read there.
pub fn runs_are_fresh()
    ensures { (board : Board) (h : List Event) → IsValid board → Run board h → Fresh board h }
{}

/// An operation was told of a write exactly where it knows of it: it stands behind one with which
/// its master came to know of the write, or it is a read that ended with a value and was taught of
/// it.
pub fn told_is_known()
    ensures known { (board : Board) (h : List Event) (w : OpId) (r : OpId) → IsValid board →
        Run board h → Told board h w r → was_told board h w r ≡ true }
    ensures told { (board : Board) (h : List Event) (w : OpId) (r : OpId) → IsValid board →
        Run board h → was_told board h w r ≡ true → Told board h w r }
{}

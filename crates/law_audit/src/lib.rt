//! What the audit of a run says, as definitions: for each read that ended with a value of its
//! target, the last write of the word that its master knew of before, and the chain of operations
//! by which it came to know of it. What an audit says is so, it leaves out no such read, and it
//! names none twice. The laws are the contracts of functions that do nothing.
#![tactic(auto)]

ghost use Rattle.std.specs.Prelude.{◌≡◌, ◌≤◌, ℕ, true, List, ◌∷◌, Some, is_some, length};
ghost use Rattle.board_model.specs.declared.board.Board.{Board};
ghost use Rattle.board_model.specs.Valid.{IsValid};
ghost use Rattle.history_model.specs.declared.event.Event.{Event};
ghost use Rattle.history_model.specs.Runs.{Run};
ghost use Rattle.history_model.specs.Knowledge.{has_landed, is_write};
ghost use Rattle.law_fresh.specs.Aware.{aware_of, knows};
ghost use Rattle.law_audit.specs.Clocks.{reaches, clocks_of};
ghost use Rattle.pci_command.specs.declared.op_id.OpId.{OpId};
ghost use Rattle.law_audit.specs.Chains.{chain_of};
ghost use Rattle.law_audit.specs.Links.{IsChain};
ghost use Rattle.law_audit.specs.Sound.{AreSound, AreAll, AreOnce};

/// What a master knows of all writes is one number for each author: in every run of a valid board a
/// master knows of a write exactly where its number for the write's master is above the write's
/// index.
pub fn clocks()
    ensures { (board : Board) (h : List Event) (w : OpId) (master : ℕ) → IsValid board →
        Run board h → is_write board w ≡ true →
        is_some ((aware_of board w h).since master) ≡ reaches ((clocks_of board h).known master) w }
{}

/// What a write tells is settled as it lands: what its author knew as it presented the write stays
/// the same at each event behind that.
pub fn landed_starts_stay()
    ensures { (board : Board) (e : Event) (h : List Event) (w : OpId) (author : ℕ) →
        Run board (e ∷ h) → has_landed h w ≡ true →
        (clocks_of board (e ∷ h)).start w author ≡ (clocks_of board h).start w author }
{}

/// An operation that knows of a write knows of each write before it in its author's program.
pub fn earlier_is_known()
    ensures { (board : Board) (h : List Event) (w v : OpId) (r : OpId) → IsValid board →
        Run board h → is_write board w ≡ true → is_write board v ≡ true → w.master ≡ v.master →
        w.index ≤ v.index → knows (aware_of board v h) r ≡ true →
        knows (aware_of board w h) r ≡ true }
{}

/// A valid board has at most 256 masters.
pub fn few_masters()
    ensures { (board : Board) → IsValid board → length board.masters ≤ 256 }
{}

/// In every run of every valid board each operation of a chain of an audit tells the next: a later
/// operation of its master, or a read that saw it; the chain begins with the write and ends with
/// the operation that was told.
pub fn chains_tell()
    ensures { (board : Board) (h : List Event) (w : OpId) (r : OpId) (chain : List OpId) →
        IsValid board → Run board h → chain_of board h w r ≡ Some chain →
        IsChain board h w r chain }
{}

/// In every run of every valid board each finding of its audit is so: what the read read and
/// returned, that its master knew of the write before, by this chain, and that of what had landed
/// in the word as it read nothing behind a landing of that write was known.
pub fn findings_are_so()
    ensures { (board : Board) (h : List Event) → IsValid board → Run board h → AreSound board h }
{}

/// Each read that ended with what it read of a word, and whose master knew of a write of that word
/// before, has a finding.
pub fn reads_that_knew_are_found()
    ensures { (board : Board) (h : List Event) → IsValid board → Run board h → AreAll board h }
{}

/// No read has two findings.
pub fn reads_are_found_once()
    ensures { (board : Board) (h : List Event) → IsValid board → Run board h → AreOnce board h }
{}

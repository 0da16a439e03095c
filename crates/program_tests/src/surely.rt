//! The program's call over ports that never fail.
ghost use Rattle.std.specs.Prelude.{◌≡◌, ◌≢◌, ℕ, List, Some, ◌⊎◌};
ghost use Rattle.program_words.specs.declared.Form.{Form as WordForm};
ghost use Rattle.pcitree.specs.Words.{form_of};
ghost use Rattle.pcitree.specs.Given.{given};
ghost use Rattle.pcitree.specs.Answers.{IsServed, IsAnswered, Causes};

use io_ports::{SureSink, SureSource};
use pcitree::{Gate, pcitree};
use program_status::Status;
use program_words::Called;
use std::alloc::Global;
use std::thread::Threads;

/// `pcitree` over ports that never fail: an input that is served is answered wherever there is
/// memory, and other answers refuse the words or the input.
pub fn pcitree_surely<R: Threads + Sync, G: Gate + Sync>(
    rt: &R,
    alloc: Global,
    words: &Called,
    source: &mut SureSource,
    sink: &mut SureSink,
    gate: &G,
) -> Status
    ensures reads { result ≢ Status.ReadFault }
    ensures writes { result ≢ Status.WriteFault }

    // The input is the number among the words, or else what the source holds.
    ensures cause { (form : WordForm) (input : List ℕ) → form_of words.now ≡ Some form
        → given form words.now (Some source.old) ≡ Some input → Causes form words.now input result }
    ensures served { (form : WordForm) (input : List ℕ) → form_of words.now ≡ Some form
        → given form words.now (Some source.old) ≡ Some input
        → IsServed form words.now input
        → IsAnswered form words.now input result ⊎ (result ≡ Status.NoMemory) }
{
    pcitree(rt, alloc, words, source, sink, gate)
}

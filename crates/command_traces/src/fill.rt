//! `fill`: what the program writes for a trace text, whose arrivals are left away and put anew, or
//! why it refuses it.
ghost use Rattle.std.specs.Prelude.{ℕ, List};
ghost use Rattle.program_input.specs.Traces.{IsRunTrace};
ghost use Rattle.command_traces.specs.fill.Answers.{AnswersFill, HasRun};

mod answer;

pub use answer::answer_fill;

/// What fill writes is the text of a valid board and of a run of it; and the text of a run, whether
/// complete or not, has acts that some run has.
pub fn filled_traces_are_runs()
    ensures runs { (input text : List ℕ) → AnswersFill input text → IsRunTrace text }
    ensures served { (input : List ℕ) → IsRunTrace input → HasRun input }
{}

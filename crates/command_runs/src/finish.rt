//! `finish`: what the program writes for the trace text of a run, or why it refuses it.
ghost use Rattle.std.specs.Prelude.{ℕ, List};
ghost use Rattle.program_input.specs.Traces.{IsCompleteTrace};
ghost use Rattle.command_runs.specs.finish.Answers.{AnswersFinish};

mod answer;

pub use answer::answer_finish;

/// What finish writes is the text of a valid board and of a complete run of it.
pub fn finished_traces_are_complete()
    ensures { (input text : List ℕ) → AnswersFinish input text → IsCompleteTrace text }
{}

//! `adverse`: a run of a board in which a read reads before a write has begun, or why none is
//! shown.
ghost use Rattle.std.specs.Prelude.{ℕ, List};
ghost use Rattle.program_input.specs.Traces.{IsCompleteTrace};
ghost use Rattle.command_safe.specs.adverse.Answers.{AnswersAdverse};

mod answer;

pub use answer::answer_adverse;

/// What adverse writes is the text of a valid board and of a complete run of it.
pub fn adverse_traces_are_complete()
    ensures { (read write input text : List ℕ) → AnswersAdverse read write input text →
        IsCompleteTrace text }
{}

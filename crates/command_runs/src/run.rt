//! `run`: what the program writes for a board text, or why it refuses it.
ghost use Rattle.std.specs.Prelude.{ℕ, List};
ghost use Rattle.program_input.specs.Traces.{IsCompleteTrace};
ghost use Rattle.command_runs.specs.run.Answers.{AnswersRun};

mod answer;

pub use answer::{answer_run, answer_run_steady};
pub use engine_runs::{Gate, NoGate};

/// What a run writes of a board is the text of a valid board and of a complete run of it.
pub fn written_runs_are_complete()
    ensures { (input trace : List ℕ) → AnswersRun input trace → IsCompleteTrace trace }
{}

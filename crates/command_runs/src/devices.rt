//! `devices`: what the program writes for the text of devices on a board, or why it refuses it.
ghost use Rattle.std.specs.Prelude.{ℕ, List};
ghost use Rattle.program_input.specs.Traces.{IsCompleteTrace};
ghost use Rattle.command_runs.specs.devices.Answers.{AnswersDevices};

mod answer;
mod delivery;

pub use answer::answer_devices;

/// What is written of devices on a board is the text of a valid board and of a complete run of it.
pub fn written_devices_are_complete()
    ensures { (input trace : List ℕ) → AnswersDevices input trace → IsCompleteTrace trace }
{}

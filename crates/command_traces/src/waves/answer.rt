ghost use Rattle.std.specs.Prelude.{◌<◌, ◌^◌, length, IfOk, IfErr};
ghost use Rattle.command_traces.specs.Runs.{RefusesRun};
ghost use Rattle.command_traces.specs.waves.Answers.{AnswersWaves};

use crate::run::read_run;
use program_input::TreeTrace;
use program_status::Status;
use run_waves::{dumps_are_lines, dumps_tell, waves, widths_fit};
use std::alloc::Global;

/// The value change dump of a run, complete or not, for its trace text.
pub fn answer_waves(alloc: Global, input: &[u8]) -> Result<Vec<u8>, Status>
    requires { length input.now < 2 ^ 31 }
    ensures ok { IfOk result (λ text. AnswersWaves input.now text.items) }
    ensures err { IfErr result (RefusesRun input.now) }
{
    let TreeTrace { tree, events } = read_run(alloc, input)?;
    dumps_are_lines();
    dumps_tell();
    widths_fit();
    match waves(alloc, &tree, events.as_slice()) {
        Ok(text) => Ok(text.into_vec()),
        Err(_) => Err(Status::NoMemory),
    }
}

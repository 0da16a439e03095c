ghost use Rattle.std.specs.Prelude.{◌<◌, ◌^◌, length, IfOk, IfErr};
ghost use Rattle.command_traces.specs.Runs.{ReadsRun, RefusesRun};

use judge_state::first_refused;
use program_input::{TreeTrace, read_tree_trace};
use program_status::Status;
use std::alloc::Global;

/// The valid board and the run of it, complete or not, whose text these bytes are, which are fewer
/// than 2^31.
pub(crate) fn read_run(alloc: Global, input: &[u8]) -> Result<TreeTrace, Status>
    requires { length input.now < 2 ^ 31 }
    ensures ok { IfOk result (ReadsRun input.now) }
    ensures err { IfErr result (RefusesRun input.now) }
{
    let trace = read_tree_trace(alloc, input)?;
    match first_refused(alloc, &trace.tree, trace.events.as_slice()) {
        Ok(None) => Ok(trace),
        Ok(Some((event, why))) => Err(Status::NotRun { event, why }),
        Err(_) => Err(Status::NoMemory),
    }
}

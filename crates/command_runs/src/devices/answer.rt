ghost use Rattle.std.specs.Prelude.{◌<◌, ◌^◌, length, IfOk, IfErr};
ghost use Rattle.dma_agents.specs.Made.{IsMade, made_read};
ghost use Rattle.program_input.specs.Devices.{RefusesDevices};
ghost use Rattle.command_runs.specs.devices.Answers.{AnswersDevices, DeliversTo};

use super::delivery::delivered;
use board_tree::Tree;
use engine_runs::steady_run;
use pci_command::{List, NoMemory};
use program_input::read_devices;
use program_status::Status;
use std::alloc::Global;
use trace_roundtrip::run_text;

/// The trace of the run of the board whose devices these bytes tell. It is refused as the text of
/// no devices on a valid board.
pub fn answer_devices(alloc: Global, input: &[u8]) -> Result<Vec<u8>, Status>
    requires { length input.now < 2 ^ 31 }
    ensures ok { IfOk result (λ trace. AnswersDevices input.now trace.items) }
    ensures err { IfErr result (RefusesDevices input.now) }
{
    let tree = read_devices(alloc, input)?;
    match trace_of(alloc, input, &tree) {
        Ok(trace) => Ok(trace.into_vec()),
        Err(_) => Err(Status::NoMemory),
    }
}

/// The trace text of the run of a board, which delivers.
fn trace_of(alloc: Global, input: &[u8], tree: &Tree) -> Result<List<u8>, NoMemory>
    requires { IsMade tree.now (made_read input.now) }
    ensures { IfOk result (DeliversTo input.now tree.now) }
{
    let events = steady_run(alloc, tree)?;
    let _always = delivered(input, tree, events.as_slice());
    run_text(alloc, tree.board(), events.as_slice())
}

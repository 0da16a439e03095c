ghost use Rattle.std.specs.Prelude.{◌<◌, ◌^◌, length, IfOk, IfErr};
ghost use Rattle.program_input.specs.Traces.{ReadsTree, RefusesTrace};

use crate::board::tree_of;
use board_tree::Tree;
use history_model::Event;
use pci_command::List;
use program_status::{BoardFault, Status};
use std::alloc::Global;
use text_faults::OrNoMemory;
use trace_reader::{TraceFault, read_trace};

/// A valid board, and the events of a trace of it.
#[derive(Debug, Drop)]
pub struct TreeTrace {
    pub tree: Tree,
    pub events: List<Event>,
}

/// The board and the events whose text these bytes are, which are fewer than 2^31.
pub fn read_tree_trace(alloc: Global, input: &[u8]) -> Result<TreeTrace, Status>
    requires { length input.now < 2 ^ 31 }
    ensures ok { IfOk result (ReadsTree input.now) }
    ensures err { IfErr result (RefusesTrace input.now) }
{
    match read_trace(alloc, input) {
        Ok((board, events)) => match tree_of(board) {
            Ok(tree) => Ok(TreeTrace { tree, events }),
            Err(status) => Err(status),
        },
        Err(OrNoMemory::Fault(TraceFault::Trace { line, fault })) => {
            Err(Status::BadTrace { line, fault })
        }
        Err(OrNoMemory::Fault(TraceFault::Board { line, fault })) => Err(Status::BadBoard {
            line,
            fault: BoardFault::Line(fault),
        }),
        Err(OrNoMemory::NoMemory) => Err(Status::NoMemory),
    }
}

ghost use Rattle.std.specs.Prelude.{◌<◌, ◌^◌, length, IfOk, IfErr};
ghost use Rattle.program_input.specs.Devices.{ReadsDevices, RefusesDevices};

use crate::board::tree_of;
use board_tree::Tree;
use dma_agents::{MakeFault, make};
use program_status::{BoardFault, Status};
use std::alloc::Global;
use text_faults::{DeviceFault, OrNoMemory};

/// The valid board of the devices that these bytes tell, which are fewer than 2^31.
#[tactic(auto, using(crate::proofs::DevicesLemmas::made_tree, crate::proofs::DevicesLemmas::tree_refused))]
pub fn read_devices(alloc: Global, input: &[u8]) -> Result<Tree, Status>
    requires { length input.now < 2 ^ 31 }
    ensures ok { IfOk result (ReadsDevices input.now) }
    ensures err { IfErr result (RefusesDevices input.now) }
{
    match make(alloc, input) {
        Ok(board) => tree_of(board),
        Err(OrNoMemory::Fault(MakeFault::Board { line, fault })) => Err(Status::BadBoard {
            line,
            fault: BoardFault::Line(fault),
        }),
        Err(OrNoMemory::Fault(MakeFault::Device { line, fault })) => Err(Status::BadBoard {
            line,
            fault: BoardFault::Device(fault),
        }),
        Err(OrNoMemory::Fault(MakeFault::NotClear { line, .. })) => Err(Status::BadBoard {
            line,
            fault: BoardFault::Device(DeviceFault::NotClear),
        }),
        Err(OrNoMemory::NoMemory) => Err(Status::NoMemory),
    }
}

ghost use Rattle.std.specs.Prelude.{◌<◌, ◌^◌, length, IfOk, IfErr};
ghost use Rattle.program_input.specs.Protocols.{ReadsProtocol, RefusesProtocol};

use crate::board::read_tree;
use crate::devices::read_devices;
use board_tree::Tree;
use dma_agents::begins_devices;
use program_status::Status;
use std::alloc::Global;

/// The valid board whose operations these bytes tell, which are fewer than 2^31: they are the text
/// of devices on a board, where the first line is that of one, and else that of a board.
pub fn read_protocol(alloc: Global, input: &[u8]) -> Result<Tree, Status>
    requires { length input.now < 2 ^ 31 }
    ensures ok { IfOk result (ReadsProtocol input.now) }
    ensures err { IfErr result (RefusesProtocol input.now) }
{
    if begins_devices(input) {
        read_devices(alloc, input)
    } else {
        read_tree(alloc, input)
    }
}

ghost use Rattle.std.specs.Prelude.{◌≡◌, true, IfOk, IsTrue};
ghost use Rattle.std.specs.List.{AllByRecursion};
ghost use Rattle.board_model.specs.WellFormed.{is_well_formed};
ghost use Rattle.board_model.specs.Valid.{has_bridge_to};
ghost use Rattle.engine_segments.specs.Parts.{IsOfBridge, PortAtFirst, PortsAtFirst};

use board_model::{Board, Lane, bridge_to};
use bus_core::Port;
use pci_command::NoMemory;
use std::alloc::Global;

/// A port for each of these lanes, in their order.
pub(crate) fn ports_of(alloc: Global, board: &Board, lanes: &[Lane]) -> Result<Vec<Port>, NoMemory>
    requires formed { IsTrue (is_well_formed board.now) }
    requires bridges { AllByRecursion (IsOfBridge board.now) lanes.now }
    ensures { IfOk result (λ ports. PortsAtFirst board.now lanes.now ports.items) }
{
    let mut ports = Vec::new(alloc);
    for lane in lanes {
        ports.push(port_of(alloc, board, *lane)?)?;
    }
    Ok(ports)
}

/// The bridge of the lane, where that ends.
fn port_of(alloc: Global, board: &Board, lane: Lane) -> Result<Port, NoMemory>
    requires formed { IsTrue (is_well_formed board.now) }
    requires bridge { IsOfBridge board.now lane }
    ensures lane { IfOk result (λ port. port.lane ≡ lane) }
    ensures first { IfOk result (PortAtFirst board.now) }
{
    let bridge = bridge_to(board, lane.bus).unwrap();
    let port = Port::new(alloc, board, bridge, lane)?;
    Ok(port)
}

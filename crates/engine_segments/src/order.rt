ghost use Rattle.std.specs.Prelude.{◌≡◌, IfOk};
ghost use Rattle.engine_segments.specs.First.{buses_of, is_below, lanes_to};

use board_model::{Board, Lane, has_bridge_to, is_bus, primary_of};
use pci_command::NoMemory;
use std::alloc::Global;

/// The buses of the board, by increasing number.
pub fn buses(alloc: Global, board: &Board) -> Result<Vec<u8>, NoMemory>
    ensures { IfOk result (λ buses. buses.items ≡ buses_of board.now) }
{
    let mut buses = Vec::new(alloc);
    for bus in 0..256u16 {
        let bus = bus as u8;
        if is_bus(board, bus) {
            buses.push(bus)?;
        }
    }
    Ok(buses)
}

/// The lanes that end on the bus: that of its own bridge, then those of the bridges below by
/// increasing number.
pub fn lanes_to(alloc: Global, board: &Board, bus: u8) -> Result<Vec<Lane>, NoMemory>
    ensures { IfOk result (λ lanes. lanes.items ≡ lanes_to board.now bus) }
{
    let mut lanes = Vec::new(alloc);
    if has_bridge_to(board, bus) {
        lanes.push(Lane { bus, up: false })?;
    }
    for child in 0..256u16 {
        let child = child as u8;
        if is_below(board, bus, child) {
            lanes.push(Lane {
                bus: child,
                up: true,
            })?;
        }
    }
    Ok(lanes)
}

/// Whether there is a bridge to this secondary bus, and it hangs below the bus.
fn is_below(board: &Board, bus: u8, child: u8) -> bool
    ensures { result ≡ is_below board.now bus child }
{
    has_bridge_to(board, child) && primary_of(board, child) == bus
}

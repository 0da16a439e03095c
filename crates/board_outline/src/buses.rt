ghost use Rattle.std.specs.Prelude.{◌≡◌, ◌++◌, IfOk, OnOk, string_bytes};
ghost use Rattle.board_outline.specs.Outline.{depth_of, leads_to, bus_text, place_text};
ghost use Rattle.board_outline.specs.Outline.{outline_text};

use crate::agents::{print_blanks, print_masters, print_targets};
use crate::bridges::print_head;
use board_model::{Board, Bridge, bridge_to, is_bus};
use pci_command::{List, NoMemory};
use std::alloc::{AllocError, Global};

/// What is on each bus of the board, from bus 0 down.
pub fn print_outline(alloc: Global, board: &Board) -> Result<List<u8>, NoMemory>
    ensures { IfOk result (λ text. text ≡ outline_text board.now) }
{
    let mut text = String::new(alloc);
    print_buses(&mut text, board)?;
    Ok(List::from_vec(text.into_bytes()))
}

fn print_buses(text: &mut String, board: &Board) -> Result<(), AllocError>
    ensures { OnOk result
        (string_bytes text.new ≡ string_bytes text.old ++ outline_text board.now) }
{
    for bus in 0..256u16 {
        print_place(text, board, bus as u8)?;
    }
    Ok(())
}

fn print_place(text: &mut String, board: &Board, bus: u8) -> Result<(), AllocError>
    ensures { OnOk result (string_bytes text.new
        ≡ string_bytes text.old ++ place_text board.now bus) }
{
    if is_bus(board, bus) {
        print_bus(text, board, bus)
    } else {
        Ok(())
    }
}

fn print_bus(text: &mut String, board: &Board, bus: u8) -> Result<(), AllocError>
    ensures { OnOk result
        (string_bytes text.new ≡ string_bytes text.old ++ bus_text board.now bus) }
{
    let depth = depth_of(board, bus);
    print_blanks(text, depth)?;
    print_head(text, bus, bridge_to(board, bus))?;
    print_masters(text, board.masters.as_slice(), bus, depth)?;
    print_targets(text, board.targets.as_slice(), bus, depth)
}

/// How many bridges lie between bus 0 and the bus.
fn depth_of(board: &Board, bus: u8) -> usize
    ensures { result ≡ depth_of board.now bus }
{
    let bridges = board.bridges.as_slice();
    bridges
        .iter()
        .filter(|bridge| leads_to(bridge, bus))
        .count()
}

fn leads_to(bridge: &Bridge, bus: u8) -> bool
    ensures { result ≡ leads_to bus bridge.now }
{
    bridge.bus <= bus && bus <= bridge.last
}

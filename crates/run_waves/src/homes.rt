ghost use Rattle.std.specs.Prelude.{◌≡◌};
ghost use Rattle.run_waves.specs.Homes.{bus_of_master, bus_of_target, home, mover_bus, taker_bus};

use crate::signal::Signal;
use board_model::{Board, Place};
use history_model::{By, Event};

/// The bus to which a signal belongs.
pub(crate) fn home(board: &Board, signal: Signal) -> u8
    ensures { result ≡ home board.now signal }
{
    match signal {
        Signal::Bus { bus, .. } => bus,
        Signal::Lane { lane, .. } => lane.bus,
        Signal::Index { master } | Signal::Try { master } | Signal::Waits { master } => {
            bus_of_master(board, master)
        }
        Signal::Stall { target } => bus_of_target(board, target),
    }
}

/// That to which who moves in an event belongs.
pub(crate) fn mover_bus(board: &Board, event: &Event) -> u8
    ensures { result ≡ mover_bus board.now event.now }
{
    match event {
        Event::Act {
            by: By::Master,
            op,
            ..
        } => bus_of_master(board, op.master),
        Event::Act {
            by: By::Lane(lane),
            ..
        } => lane.bus,
        Event::Arrive { lane, .. } => lane.bus,
    }
}

/// That to which belongs who claims.
pub(crate) fn taker_bus(board: &Board, event: &Event) -> Option<u8>
    ensures { result ≡ taker_bus board.now event.now }
{
    match event {
        Event::Act { place, .. } => match place {
            Place::Target(target) => Some(bus_of_target(board, *target)),
            Place::Lane(lane) => Some(lane.bus),
            Place::Header(_) | Place::Nobody => None,
        },
        Event::Arrive { .. } => None,
    }
}

fn bus_of_master(board: &Board, master: u16) -> u8
    ensures { result ≡ bus_of_master board.now master }
{
    match board.masters.as_slice().get(usize::from(master)) {
        Some(agent) => agent.bus,
        None => 0,
    }
}

fn bus_of_target(board: &Board, target: u16) -> u8
    ensures { result ≡ bus_of_target board.now target }
{
    match board.targets.as_slice().get(usize::from(target)) {
        Some(agent) => agent.bus,
        None => 0,
    }
}

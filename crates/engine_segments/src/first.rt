ghost use Rattle.std.specs.Prelude.{◌≡◌, length, map, IfOk};
ghost use Rattle.std.specs.List.{AllByRecursion};
ghost use Rattle.board_model.specs.Valid.{IsValid};
ghost use Rattle.engine_segments.specs.First.{lanes_to, AreEndsOf, worker_of};
ghost use Rattle.engine_segments.specs.First.{IsAtFirst, AreAtFirst};
ghost use Rattle.board_model.specs.Fits.{BridgeFits};
ghost use Rattle.engine_segments.specs.Parts.{BusAtFirst};

use crate::agents::{masters_on, targets_on};
use crate::order::{buses, lanes_to};
use crate::ports::ports_of;
use board_model::{Board, board_fits};
use board_tree::Tree;
use bus_agents::Through;
use bus_core::Bus;
use bus_segment::Segment;
use lane_items::LaneEnd;
use pci_command::NoMemory;
use std::alloc::Global;

/// The segments of a board before its first event, one a bus, by increasing number of the bus. The
/// ends of lanes are those at the ports of each bus, in the same order.
pub fn segments<L: LaneEnd + Drop>(
    alloc: Global,
    tree: &Tree,
    ends: Vec<Vec<L>>,
) -> Result<Vec<Segment<L>>, NoMemory>
    requires { AreEndsOf tree.now (map (λ at. at.items) ends.items) }
    ensures { IfOk result (λ segments.
        AreAtFirst tree.now (map (λ at. at.items) ends.items) (map worker_of segments.items)) }
{
    let board = tree.board();
    board_fits(board);
    let buses = buses(alloc, board)?;
    let mut segments = Vec::new(alloc);
    for at in ends {
        let segment = segment_on(alloc, board, buses[segments.len()], at)?;
        segments.push(segment)?;
    }
    Ok(segments)
}

/// The segment of one bus, between these ends of lanes.
fn segment_on<L: LaneEnd + Drop>(
    alloc: Global,
    board: &Board,
    bus: u8,
    ends: Vec<L>,
) -> Result<Segment<L>, NoMemory>
    requires valid { IsValid board.now }
    requires fit { AllByRecursion BridgeFits board.now.bridges }
    requires one_a_port { length ends.items ≡ length (lanes_to board.now bus) }
    ensures bus { IfOk result (λ s. s.bus.bus ≡ bus) }
    ensures ends { IfOk result (λ s. s.ends.items ≡ ends.items) }
    ensures first { IfOk result (λ s. IsAtFirst board.now (worker_of s)) }
{
    let bus = bus_on(alloc, board, bus)?;
    Ok(Segment::new(alloc, bus, ends))
}

/// All that is on one bus.
fn bus_on(alloc: Global, board: &Board, bus: u8) -> Result<Bus, NoMemory>
    requires valid { IsValid board.now }
    ensures { IfOk result (BusAtFirst board.now bus) }
{
    let lanes = lanes_to(alloc, board, bus)?;
    let ports = ports_of(alloc, board, lanes.as_slice())?;
    let masters = masters_on(alloc, board, bus)?;
    let targets = targets_on(alloc, board, bus)?;
    let through = Through::new(alloc, board)?;
    Ok(Bus::new(bus, ports, masters, targets, through))
}

ghost use Rattle.std.specs.Prelude.{◌≡◌, ◌+◌, ◌<◌, Some, length, map, slice_get, true, IfOk};
ghost use Rattle.board_model.specs.Valid.{IsValid, has_bridge_to};
ghost use Rattle.bus_core.specs.Bus.{HasPlace};
ghost use Rattle.engine_segments.specs.First.{buses_of, AreEndsOf};
ghost use Rattle.engine_segments.specs.ring.Pairs.{AreNewPairs, one_more};
ghost use Rattle.engine_segments.specs.ring.Making.{RingsSoFar};

use crate::buses;
use board_model::{Board, has_bridge_to, primary_of};
use board_tree::Tree;
use lane_ends::{RingEnd, ring_pair};
use lane_items::LaneEnd;
use pci_command::NoMemory;
use std::alloc::Global;

/// For each bus of the board, by increasing number, an end over rings at each of its ports: the two
/// ends of a bridge are those of one pair, with nothing in hand and nothing sent. It fails only
/// where there is no memory for the rings.
pub fn ring_ends(alloc: Global, tree: &Tree) -> Result<Vec<Vec<RingEnd>>, NoMemory>
    ensures fit { IfOk result (λ ends. AreEndsOf tree.now (map (λ at. at.items) ends.items)) }
    ensures pairs { IfOk result (λ ends.
        AreNewPairs ⟦<RingEnd as LaneEnd>⟧.had ⟦<RingEnd as LaneEnd>⟧.sent
        ⟦<RingEnd as LaneEnd>⟧.got ⟦<RingEnd as LaneEnd>⟧.kept ⟦<RingEnd as LaneEnd>⟧.paired
        tree.now (map (λ at. at.items) ends.items)) }
{
    let board = tree.board();
    let buses = buses(alloc, board)?;
    let mut ends = no_ends(alloc, board, buses.len())?;
    for bus in 0..256u16 {
        let bus = bus as u8;
        if has_bridge_to(board, bus) {
            add_pair(alloc, board, buses.as_slice(), bus, &mut ends)?;
        }
    }
    Ok(ends)
}

/// No end yet on any of so many buses.
fn no_ends(alloc: Global, board: &Board, buses: usize) -> Result<Vec<Vec<RingEnd>>, NoMemory>
    requires { buses ≡ length (buses_of board.now) }
    ensures { IfOk result (λ ends. RingsSoFar board.now 0 (map (λ at. at.items) ends.items)) }
{
    let mut ends = Vec::new(alloc);
    for _bus in 0..buses {
        ends.push(Vec::new(alloc))?;
    }
    Ok(ends)
}

/// The two ends of the bridge to the bus: the upper one on its primary bus, the lower one on the
/// bus.
fn add_pair(
    alloc: Global,
    board: &Board,
    buses: &[u8],
    bus: u8,
    ends: &mut Vec<Vec<RingEnd>>,
) -> Result<(), NoMemory>
    requires valid { IsValid board.now }
    requires buses { buses.now ≡ buses_of board.now }
    requires bridge { has_bridge_to board.now bus ≡ true }
    requires so_far { RingsSoFar board.now bus (map (λ at. at.items) ends.old.items) }
    ensures { IfOk result (λ _.
        RingsSoFar board.now (bus + 1) (map (λ at. at.items) ends.new.items)) }
{
    let (upper, lower) = ring_pair(alloc)?;
    let above = place_of(buses, primary_of(board, bus));
    let here = place_of(buses, bus);
    add(ends, above, upper)?;
    add(ends, here, lower)?;
    Ok(())
}

/// One more end on the bus of this place.
fn add(ends: &mut Vec<Vec<RingEnd>>, place: usize, end: RingEnd) -> Result<(), NoMemory>
    requires { place < length ends.old.items }
    ensures { IfOk result (λ _. map (λ at. at.items) ends.new.items ≡
        one_more place end (map (λ at. at.items) ends.old.items)) }
{
    ends[place].push(end)?;
    Ok(())
}

/// The place of a bus among the buses.
fn place_of(buses: &[u8], bus: u8) -> usize
    requires { HasPlace buses.now bus }
    ensures { slice_get buses.now result ≡ Some bus }
{
    buses.iter().position(|other| *other == bus).unwrap()
}

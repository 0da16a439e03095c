ghost use Rattle.std.specs.Prelude.{◌≡◌, [], map, IfOk};
ghost use Rattle.engine_segments.specs.First.{lanes_to, AreEndsOf, ends_alike};

use crate::order::{buses, lanes_to};
use board_model::Board;
use board_tree::Tree;
use lane_ends::PlainEnd;
use pci_command::NoMemory;
use std::alloc::Global;

/// For each bus of the board, by increasing number, an end of a plain lane at each of its ports,
/// with nothing in hand and nothing sent.
pub fn plain_ends(alloc: Global, tree: &Tree) -> Result<Vec<Vec<PlainEnd>>, NoMemory>
    ensures ends { IfOk result (λ ends. map (λ at. at.items) ends.items ≡
        ends_alike tree.now (record { got = []; hand = []; sent = [] })) }
    ensures fit { IfOk result (λ ends. AreEndsOf tree.now (map (λ at. at.items) ends.items)) }
{
    let buses = buses(alloc, tree.board())?;
    let mut ends = Vec::new(alloc);
    for bus in buses.as_slice() {
        ends.push(plain_ends_on(alloc, tree.board(), *bus)?)?;
    }
    Ok(ends)
}

fn plain_ends_on(alloc: Global, board: &Board, bus: u8) -> Result<Vec<PlainEnd>, NoMemory>
    ensures { IfOk result (λ ends. ends.items ≡
        map (λ lane. record { got = []; hand = []; sent = [] }) (lanes_to board.now bus)) }
{
    let lanes = lanes_to(alloc, board, bus)?;
    let ends = lanes.iter().map(|_| PlainEnd::new()).collect(alloc)?;
    Ok(ends)
}

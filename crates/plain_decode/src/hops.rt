ghost use Rattle.std.specs.Prelude.{◌≡◌, IsSome};
ghost use Rattle.board_model.specs.Requests.{op_of};
ghost use Rattle.board_model.specs.Claims.{claim};
ghost use Rattle.board_tree.specs.Decodable.{IsDecodable};
ghost use Rattle.plain_decode.specs.Hops.{hop_of};
ghost use Rattle.plain_decode.specs.Lengths.{way_length_of};

use crate::Hop;
use crate::claims::claim_on;
use board_model::{Board, Place, op_of};
use board_tree::{Tree, route_of};
use pci_command::{OpId, Request};

/// Where a request on a bus of the tree goes next: to who claims it.
pub fn next_hop(tree: &Tree, bus: u8, request: &Request) -> Hop
    ensures { result ≡ hop_of (claim tree.now bus request.now) }
{
    match claim_on(tree.board(), bus, request) {
        Place::Target(target) => Hop::Target(target),
        Place::Header(bridge) => Hop::Header(bridge),
        Place::Lane(lane) if lane.up => Hop::Up,
        Place::Lane(lane) => Hop::Down(lane.bus),
        Place::Nobody => Hop::Nobody,
    }
}

/// How many lanes the way of an operation takes from the bus of its master.
pub fn way_length(tree: &Tree, op: OpId) -> u8
    requires { IsSome (op_of tree.now op) }
    ensures { way_length_of tree.now op ≡ Some result }
{
    way_length_in(tree.board(), op).unwrap()
}

fn way_length_in(board: &Board, op: OpId) -> Option<u8>
    requires { IsDecodable board.now }
    ensures { result ≡ way_length_of board.now op }
{
    let master = board.masters.as_slice().get(op.master as usize)?;
    let found = op_of(board, op)?;
    Some(route_of(board, found, master.bus).lanes)
}

ghost use Rattle.std.specs.Prelude.{◌≡◌, ◌≤◌, length};
ghost use Rattle.board_model.specs.Ways.{route_within, route_of};
ghost use Rattle.board_tree.specs.Decodable.{IsDecodable};
ghost use Rattle.board_tree.specs.Sites.{AreKnown};

use crate::Sites;
use crate::claims::claim_of;
use board_model::{Board, Op, Place, end_of, request_on};

/// How many lanes the way of an operation takes, and the bus and the owner where it ends.
#[derive(Clone, Copy)]
pub struct Route {
    pub lanes: u8,
    pub bus: u8,
    pub owner: Place,
}

/// The way of an operation from a bus on.
pub fn route_of(board: &Board, op: &Op, on: u8) -> Route
    requires { IsDecodable board.now }
    ensures lanes { result.lanes ≡ length (route_of board.now op.now on).lanes }
    ensures bus { result.bus ≡ (route_of board.now op.now on).bus }
    ensures owner { result.owner ≡ (route_of board.now op.now on).owner }
{
    route_by(board, None, op, on)
}

/// The same, where the sites of the board may be known.
pub fn route_by(board: &Board, sites: Option<&Sites>, op: &Op, on: u8) -> Route
    requires decodable { IsDecodable board.now }
    requires sites { AreKnown board.now sites }
    ensures lanes { result.lanes ≡ length (route_of board.now op.now on).lanes }
    ensures bus { result.bus ≡ (route_of board.now op.now on).bus }
    ensures owner { result.owner ≡ (route_of board.now op.now on).owner }
{
    let most = board.bridges.as_slice().len() as u8;
    route_within(board, sites, op, on, most)
}

/// The same of at most so many lanes, by following claims.
fn route_within(board: &Board, sites: Option<&Sites>, op: &Op, on: u8, most: u8) -> Route
    requires decodable { IsDecodable board.now }
    requires sites { AreKnown board.now sites }
    ensures lanes { result.lanes ≡ length (route_within most board.now op.now on).lanes }
    ensures bus { result.bus ≡ (route_within most board.now op.now on).bus }
    ensures owner { result.owner ≡ (route_within most board.now op.now on).owner }
    ensures short { result.lanes ≤ most }
{
    let owner = claim_of(board, sites, on, &request_on(op, on));
    if most == 0 {
        return ends_at(on, owner);
    }
    match owner {
        Place::Lane(lane) => {
            let onwards = route_within(board, sites, op, end_of(board, lane), most - 1);
            Route {
                lanes: onwards.lanes + 1,
                bus: onwards.bus,
                owner: onwards.owner,
            }
        }
        Place::Target(_) => ends_at(on, owner),
        Place::Header(_) => ends_at(on, owner),
        Place::Nobody => ends_at(on, owner),
    }
}

fn ends_at(bus: u8, owner: Place) -> Route
    ensures { result ≡ record { lanes = 0; bus = bus; owner = owner } }
{
    Route {
        lanes: 0,
        bus,
        owner,
    }
}

ghost use Rattle.std.specs.Prelude.{◌≡◌, ◌≤◌, length, slice_get};
ghost use Rattle.board_model.specs.Ways.{primary_in};
ghost use Rattle.board_tree.specs.Chains.{AreChained};
ghost use Rattle.board_tree.specs.Decodable.{IsDecodable};
ghost use Rattle.board_tree.specs.Sites.{AreSites, buses_of, primaries_of, secondaries_of};
ghost use Rattle.board_tree.specs.Sites.{bus_of_target, secondary_in};

use crate::chains::Chains;
use board_model::{Board, Bridge, Target};

/// Where the targets and bridges of each bus stand on a board, so that those of other buses need
/// not be looked at.
#[derive(Debug, Drop)]
pub struct Sites {
    pub(crate) targets: Chains,
    /// The bridges below each bus.
    pub(crate) below: Chains,
    /// The bridge above each bus.
    pub(crate) above: Chains,
}

impl Sites {
    /// Those of the board.
    pub(crate) fn of(board: &Board) -> Sites
        requires { IsDecodable board.now }
        ensures { AreSites board.now result }
    {
        let targets = board.targets.as_slice();
        let bridges = board.bridges.as_slice();
        Sites {
            targets: by_bus(targets),
            below: by_primary(bridges),
            above: by_secondary(bridges),
        }
    }
}

/// Targets by their bus.
fn by_bus(targets: &[Target]) -> Chains
    requires { length targets.now ≤ 256 }
    ensures { AreChained (buses_of targets.now) result }
{
    let mut chains = Chains::none();
    for place in (0..targets.len()).rev() {
        chains.put(bus_of(targets, place), place as u16);
    }
    chains
}

/// Bridges by the bus above them.
fn by_primary(bridges: &[Bridge]) -> Chains
    requires { length bridges.now ≤ 256 }
    ensures { AreChained (primaries_of bridges.now) result }
{
    let mut chains = Chains::none();
    for place in (0..bridges.len()).rev() {
        chains.put(primary_at(bridges, place), place as u16);
    }
    chains
}

/// Bridges by the bus below them.
fn by_secondary(bridges: &[Bridge]) -> Chains
    requires { length bridges.now ≤ 256 }
    ensures { AreChained (secondaries_of bridges.now) result }
{
    let mut chains = Chains::none();
    for place in (0..bridges.len()).rev() {
        chains.put(secondary_at(bridges, place), place as u16);
    }
    chains
}

/// The bus of the target at the place.
fn bus_of(targets: &[Target], place: usize) -> u8
    ensures { result ≡ bus_of_target (slice_get targets.now place) }
{
    match targets.get(place) {
        Some(target) => target.bus,
        None => 0,
    }
}

/// The bus above the bridge at the place.
fn primary_at(bridges: &[Bridge], place: usize) -> u8
    ensures { result ≡ primary_in (slice_get bridges.now place) }
{
    match bridges.get(place) {
        Some(bridge) => bridge.parent,
        None => 0,
    }
}

/// The bus below the bridge at the place.
fn secondary_at(bridges: &[Bridge], place: usize) -> u8
    ensures { result ≡ secondary_in (slice_get bridges.now place) }
{
    match bridges.get(place) {
        Some(bridge) => bridge.bus,
        None => 0,
    }
}

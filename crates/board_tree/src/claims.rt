//! Who claims a request on a bus. Where the sites of the board are known, only the targets and
//! bridges of that bus are looked at, and else all of the board (`board_model`).
ghost use Rattle.std.specs.Prelude.{◌≡◌, ◌==◌, ◌&&◌, IsTrue, slice_get};
ghost use Rattle.std.specs.Option.{option_copied};
ghost use Rattle.std.specs.List.{find, list_any, position_from};
ghost use Rattle.board_model.specs.WellFormed.{has_bus, is_well_formed};
ghost use Rattle.board_model.specs.Claims.{range_holds, decodes_down, claim_upwards};
ghost use Rattle.board_model.specs.Claims.{claim_by_bridge, claim_by_address};
ghost use Rattle.board_model.specs.Claims.{claim_in_space, claim};
ghost use Rattle.board_tree.specs.Chains.{AreChained};
ghost use Rattle.board_tree.specs.Sites.{AreKnown, AreSites, buses_of, primaries_of};
ghost use Rattle.board_tree.specs.Sites.{claims_at, holds_at};

use crate::Sites;
use crate::chains::Chains;
use board_model::{Board, Bridge, Lane, Place, Target, bridge_holds, claim_in_space, is_in_ranges};
use pci_command::{Request, Space};

/// Who claims the request on the bus.
pub(crate) fn claim_of(board: &Board, sites: Option<&Sites>, bus: u8, request: &Request) -> Place
    requires formed { IsTrue (is_well_formed board.now) }
    requires sites { AreKnown board.now sites }
    ensures { result ≡ claim board.now bus request.now }
{
    let space = request.command.space();
    claim_with(board, sites, bus, space, u128::from(request.address))
}

/// Who claims an access to this address of the space on the bus, also to one beyond the space.
pub fn claim_with(
    board: &Board,
    sites: Option<&Sites>,
    bus: u8,
    space: Space,
    address: u128,
) -> Place
    requires formed { IsTrue (is_well_formed board.now) }
    requires sites { AreKnown board.now sites }
    ensures { result ≡ claim_in_space board.now bus space address }
{
    match sites {
        Some(known) => claim_by_sites(board, known, bus, space, address),
        None => claim_in_space(board, bus, space, address),
    }
}

fn claim_by_sites(board: &Board, sites: &Sites, bus: u8, space: Space, address: u128) -> Place
    requires formed { IsTrue (is_well_formed board.now) }
    requires sites { AreSites board.now sites.now }
    ensures { result ≡ claim_in_space board.now bus space address }
{
    match space {
        Space::Mem => claim_by_address(board, sites, bus, Space::Mem, address),
        Space::Io => claim_by_address(board, sites, bus, Space::Io, address),
        Space::Cfg => claim_in_space(board, bus, Space::Cfg, address),
    }
}

/// A target on the bus with the address in one of its ranges, or else a bridge.
fn claim_by_address(board: &Board, sites: &Sites, bus: u8, space: Space, address: u128) -> Place
    requires { AreSites board.now sites.now }
    ensures { result ≡
        claim_by_address board.now bus space address (position_from (λ target. target.bus == bus &&
        list_any (range_holds space address) target.ranges) 0 board.now.targets) }
{
    match target_on(board, sites, bus, space, address) {
        Some(target) => Place::Target(target),
        None => claim_by_bridge(board, sites, bus, space, address),
    }
}

fn target_on(board: &Board, sites: &Sites, bus: u8, space: Space, address: u128) -> Option<u16>
    requires { AreSites board.now sites.now }
    ensures { result ≡ position_from (λ target. target.bus == bus &&
        list_any (range_holds space address) target.ranges) 0 board.now.targets }
{
    let targets = board.targets.as_slice();
    target_at(&sites.targets, targets, bus, space, address)
}

/// The first target of the chain of the bus that has the address in one of its ranges.
fn target_at(
    chains: &Chains,
    targets: &[Target],
    bus: u8,
    space: Space,
    address: u128,
) -> Option<u16>
    requires { AreChained (buses_of targets.now) chains.now }
    ensures { result ≡ position_from (λ target. target.bus == bus &&
        list_any (range_holds space address) target.ranges) 0 targets.now }
{
    let mut place = chains.first_of(bus);
    while (place as usize) < targets.len() {
        if claims_at(targets, place, space, address) {
            return Some(place);
        }
        place = chains.next_of(place);
    }
    None
}

/// Whether a target at the place has the address in one of its ranges.
fn claims_at(targets: &[Target], place: u16, space: Space, address: u128) -> bool
    ensures { result ≡ claims_at space address (slice_get targets.now place) }
{
    match targets.get(place as usize) {
        Some(target) => is_in_ranges(target.ranges.as_slice(), space, address),
        None => false,
    }
}

/// Positive decoding by a bridge below the bus, or else inverse decoding by that above it.
fn claim_by_bridge(board: &Board, sites: &Sites, bus: u8, space: Space, address: u128) -> Place
    requires { AreSites board.now sites.now }
    ensures { result ≡
        claim_by_bridge board.now bus space address
        (find (decodes_down bus space address) board.now.bridges) }
{
    match child_holding(board, sites, bus, space, address) {
        Some(child) => Place::Lane(Lane {
            bus: child.bus,
            up: false,
        }),
        None => claim_upwards(board, sites, bus, space, address),
    }
}

fn child_holding<'a>(
    board: &'a Board,
    sites: &Sites,
    bus: u8,
    space: Space,
    address: u128,
) -> Option<&'a Bridge>
    requires { AreSites board.now sites.now }
    ensures { option_copied result ≡ find (decodes_down bus space address) board.now.bridges }
{
    let bridges = board.bridges.as_slice();
    let place = child_place(&sites.below, bridges, bus, space, address);
    bridge_at(bridges, place)
}

/// The place of the first bridge of the chain of the bus that holds the address, or behind all.
fn child_place(chains: &Chains, bridges: &[Bridge], bus: u8, space: Space, address: u128) -> u16
    requires { AreChained (primaries_of bridges.now) chains.now }
    ensures { slice_get bridges.now result ≡ find (decodes_down bus space address) bridges.now }
{
    let mut place = chains.first_of(bus);
    while (place as usize) < bridges.len() {
        if holds_at(bridges, place, space, address) {
            return place;
        }
        place = chains.next_of(place);
    }
    place
}

/// Whether a bridge at the place holds the address.
fn holds_at(bridges: &[Bridge], place: u16, space: Space, address: u128) -> bool
    ensures { result ≡ holds_at space address (slice_get bridges.now place) }
{
    match bridges.get(place as usize) {
        Some(bridge) => bridge_holds(bridge, space, address),
        None => false,
    }
}

fn claim_upwards(board: &Board, sites: &Sites, bus: u8, space: Space, address: u128) -> Place
    requires { AreSites board.now sites.now }
    ensures { result ≡
        claim_upwards bus space address (find (λ bridge. bridge.bus == bus) board.now.bridges) }
{
    match own_bridge(board, sites, bus) {
        Some(own) if !bridge_holds(own, space, address) => Place::Lane(Lane { bus, up: true }),
        Some(_) | None => Place::Nobody,
    }
}

/// The bridge above the bus.
fn own_bridge<'a>(board: &'a Board, sites: &Sites, bus: u8) -> Option<&'a Bridge>
    requires { AreSites board.now sites.now }
    ensures { option_copied result ≡ find (has_bus bus) board.now.bridges }
{
    let bridges = board.bridges.as_slice();
    let place = sites.above.first_of(bus);
    bridge_at(bridges, place)
}

fn bridge_at(bridges: &[Bridge], place: u16) -> Option<&Bridge>
    ensures { option_copied result ≡ slice_get bridges.now place }
{
    bridges.get(place as usize)
}

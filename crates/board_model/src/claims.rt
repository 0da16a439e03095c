//! Who claims a request on a bus, found by a look at every agent of the board: PCI-to-PCI Bridge
//! Architecture Specification 1.1, chapter 4 (addresses), section 3.1 (configuration; from memory).
ghost use Rattle.std.specs.Prelude.{◌≡◌, ◌/◌, ◌%◌, ◌^◌, ◌<◌, ◌≤◌, ◌==◌};
ghost use Rattle.std.specs.Prelude.{◌&&◌, length, nat_le, IsTrue};
ghost use Rattle.std.specs.Option.{option_copied};
ghost use Rattle.std.specs.List.{find, list_any, position_from};
ghost use Rattle.board_model.specs.declared.bridge.Bridge.{Bridge};
ghost use Rattle.board_model.specs.declared.agents.Target.{Target};
ghost use Rattle.board_model.specs.WellFormed.{is_well_formed};
ghost use Rattle.board_model.specs.Claims.{range_holds, bridge_holds, decodes_down, claim_upwards};
ghost use Rattle.board_model.specs.Claims.{claim_by_bridge, claim_by_address, claim_by_header};
ghost use Rattle.board_model.specs.Claims.{claim_by_device, claim_by_bus, is_type_0, device_in};
ghost use Rattle.board_model.specs.Claims.{bus_in, claim_in_configuration, claim_in_space, claim};

use crate::{Board, Bridge, Lane, Place, Range, Target, bridge_to, window_holds};
use pci_command::{Request, Space};

/// Who claims the request on the bus.
pub fn claim(board: &Board, bus: u8, request: &Request) -> Place
    requires { IsTrue (is_well_formed board.now) }
    ensures { result ≡ claim board.now bus request.now }
{
    let space = request.command.space();
    claim_in_space(board, bus, space, u128::from(request.address))
}

/// Who claims an access to this address of the space on the bus, also to one beyond the space.
pub fn claim_in_space(board: &Board, bus: u8, space: Space, address: u128) -> Place
    requires { IsTrue (is_well_formed board.now) }
    ensures { result ≡ claim_in_space board.now bus space address }
{
    match space {
        Space::Mem => claim_by_address(board, bus, Space::Mem, address),
        Space::Io => claim_by_address(board, bus, Space::Io, address),
        Space::Cfg => claim_in_configuration(board, bus, address),
    }
}

/// Whether the address of the space lies in one of the ranges.
pub fn is_in_ranges(ranges: &[Range], space: Space, address: u128) -> bool
    ensures { result ≡ list_any (range_holds space address) ranges.now }
{
    match u64::try_from(address) {
        Ok(low) => is_low_in_ranges(ranges, space, low),
        Err(_) => ranges
            .iter()
            .any(|range| range_holds(range, space, address)),
    }
}

/// The same of an address of 64 bits, as that of each operation is.
fn is_low_in_ranges(ranges: &[Range], space: Space, address: u64) -> bool
    ensures { result ≡ list_any (range_holds space address) ranges.now }
{
    ranges.iter().any(|range| holds_low(range, space, address))
}

#[tactic(auto, using(crate::proofs::RangeLemmas::below_end))]
fn holds_low(range: &Range, space: Space, address: u64) -> bool
    ensures { result ≡ range_holds space address range.now }
{
    range.space == space && range.base <= address && address - range.base < range.size
}

fn range_holds(range: &Range, space: Space, address: u128) -> bool
    ensures { result ≡ range_holds space address range.now }
{
    let base = u128::from(range.base);
    let end = base + u128::from(range.size);
    range.space == space && base <= address && address < end
}

/// A target on the bus with the address in one of its ranges, or else a bridge.
fn claim_by_address(board: &Board, bus: u8, space: Space, address: u128) -> Place
    requires { IsTrue (is_well_formed board.now) }
    ensures { result ≡
        claim_by_address board.now bus space address (position_from (λ target. target.bus == bus &&
        list_any (range_holds space address) target.ranges) 0 board.now.targets) }
{
    match target_at(board, bus, space, address) {
        Some(target) => Place::Target(target),
        None => claim_by_bridge(board, bus, space, address),
    }
}

#[tactic(auto, using(crate::proofs::FewLemmas::few_targets_before, crate::proofs::FewLemmas::target_more))]
fn target_at(board: &Board, bus: u8, space: Space, address: u128) -> Option<u16>
    requires { IsTrue (is_well_formed board.now) }
    ensures { result ≡ position_from (λ target. target.bus == bus &&
        list_any (range_holds space address) target.ranges) 0 board.now.targets }
{
    for (index, target) in board.targets.as_slice().iter().enumerate() {
        if claims(target, bus, space, address) {
            return Some(index as u16);
        }
    }
    None
}

fn claims(target: &Target, bus: u8, space: Space, address: u128) -> bool
    ensures value { result ≡
        (target.now.bus == bus && list_any (range_holds space address) target.now.ranges) }
    ensures on_a_bus { target.now.bus < 256 }
{
    target.bus == bus && is_in_ranges(target.ranges.as_slice(), space, address)
}

/// Positive decoding by a bridge below the bus, or else inverse decoding by that above it.
fn claim_by_bridge(board: &Board, bus: u8, space: Space, address: u128) -> Place
    ensures { result ≡
        claim_by_bridge board.now bus space address
        (find (decodes_down bus space address) board.now.bridges) }
{
    match child_holding(board, bus, space, address) {
        Some(child) => Place::Lane(Lane {
            bus: child.bus,
            up: false,
        }),
        None => claim_upwards(board, bus, space, address),
    }
}

fn child_holding(board: &Board, bus: u8, space: Space, address: u128) -> Option<&Bridge>
    ensures { option_copied result ≡ find (decodes_down bus space address) board.now.bridges }
{
    let bridges = board.bridges.as_slice();
    bridges.iter().find(|bridge| bridge.parent == bus && bridge_holds(bridge, space, address))
}

fn claim_upwards(board: &Board, bus: u8, space: Space, address: u128) -> Place
    ensures { result ≡
        claim_upwards bus space address (find (λ bridge. bridge.bus == bus) board.now.bridges) }
{
    match bridge_to(board, bus) {
        Some(own) if !bridge_holds(own, space, address) => Place::Lane(Lane { bus, up: true }),
        Some(_) | None => Place::Nobody,
    }
}

/// Whether the address lies in a window of the bridge for its space.
pub fn bridge_holds(bridge: &Bridge, space: Space, address: u128) -> bool
    ensures { result ≡ bridge_holds space address bridge.now }
{
    match space {
        Space::Mem => window_holds(bridge.mem, address) || window_holds(bridge.pref, address),
        Space::Io => window_holds(bridge.io, address),
        Space::Cfg => false,
    }
}

/// Type 0: a target, or else the header of a bridge, with the device number. Type 1: the bridge
/// behind which the named bus lies.
fn claim_in_configuration(board: &Board, bus: u8, address: u128) -> Place
    requires { IsTrue (is_well_formed board.now) }
    ensures { result ≡ claim_in_configuration board.now bus address }
{
    if address % 4 == 0 {
        claim_by_device(board, bus, (address / 0x800 % 32) as u8)
    } else {
        claim_by_bus(board, bus, (address / 0x1_0000 % 256) as u8)
    }
}

fn claim_by_device(board: &Board, bus: u8, device: u8) -> Place
    requires { IsTrue (is_well_formed board.now) }
    ensures { result ≡
        claim_by_device board.now bus device
        (position_from (λ target. target.bus == bus && target.device == device) 0
        board.now.targets) }
{
    match target_with(board, bus, device) {
        Some(target) => Place::Target(target),
        None => claim_by_header(board, bus, device),
    }
}

#[tactic(auto, using(crate::proofs::FewLemmas::few_targets_before, crate::proofs::FewLemmas::target_more))]
fn target_with(board: &Board, bus: u8, device: u8) -> Option<u16>
    requires { IsTrue (is_well_formed board.now) }
    ensures { result ≡
        position_from (λ target. target.bus == bus && target.device == device) 0 board.now.targets }
{
    for (index, target) in board.targets.as_slice().iter().enumerate() {
        if has_number(target, bus, device) {
            return Some(index as u16);
        }
    }
    None
}

fn has_number(target: &Target, bus: u8, device: u8) -> bool
    ensures value { result ≡ (target.now.bus == bus && target.now.device == device) }
    ensures on_a_bus { target.now.bus < 256 }
{
    target.bus == bus && target.device == device
}

fn claim_by_header(board: &Board, bus: u8, device: u8) -> Place
    ensures { result ≡
        claim_by_header (find (λ bridge. bridge.parent == bus && bridge.device == device)
        board.now.bridges) }
{
    match child_with(board, bus, device) {
        Some(child) => Place::Header(child.bus),
        None => Place::Nobody,
    }
}

fn child_with(board: &Board, bus: u8, device: u8) -> Option<&Bridge>
    ensures { option_copied result ≡
        find (λ bridge. bridge.parent == bus && bridge.device == device) board.now.bridges }
{
    let bridges = board.bridges.as_slice();
    bridges
        .iter()
        .find(|bridge| bridge.parent == bus && bridge.device == device)
}

fn claim_by_bus(board: &Board, bus: u8, named: u8) -> Place
    ensures { result ≡
        claim_by_bus (find (λ bridge. bridge.parent == bus && nat_le bridge.bus named &&
        nat_le named bridge.last) board.now.bridges) }
{
    match child_towards(board, bus, named) {
        Some(child) => Place::Lane(Lane {
            bus: child.bus,
            up: false,
        }),
        None => Place::Nobody,
    }
}

fn child_towards(board: &Board, bus: u8, named: u8) -> Option<&Bridge>
    ensures { option_copied result ≡
        find (λ bridge. bridge.parent == bus && nat_le bridge.bus named && nat_le named bridge.last)
        board.now.bridges }
{
    let bridges = board.bridges.as_slice();
    bridges.iter().find(|bridge| bridge.parent == bus
        && bridge.bus <= named
        && named <= bridge.last)
}

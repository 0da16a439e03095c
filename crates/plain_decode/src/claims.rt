ghost use Rattle.std.specs.Prelude.{◌≡◌, ◌≢◌, ◌<◌, All, IfSome, length, ◌&&◌, ◌==◌, nat_le};
ghost use Rattle.std.specs.List.{find, list_any, position_from};
ghost use Rattle.board_model.specs.Claims.{range_holds, decodes_down, claim_upwards};
ghost use Rattle.board_model.specs.Claims.{claim_by_bridge, claim_by_address, claim_by_header};
ghost use Rattle.board_model.specs.Claims.{claim_by_device, claim_by_bus, claim_in_configuration};
ghost use Rattle.board_model.specs.Claims.{claim, device_in, bus_in, is_type_0};
ghost use Rattle.plain_decode.specs.ReadBack.{IsReadBack, AreReadBack};

use crate::{CfgRoute, claim_down, claim_up, convert_cfg, decoding_is_claim};
use board_model::{Board, Bridge, Lane, Place, Target, is_in_ranges};
use pci_command::{Request, Space};

/// Who claims the request on the bus: targets by their ranges, bridges by their headers.
pub fn claim_on(board: &Board, bus: u8, request: &Request) -> Place
    requires { AreReadBack board.now }
    ensures { result ≡ claim board.now bus request.now }
{
    match request.command.space() {
        Space::Mem => claim_by_address(board, bus, Space::Mem, request.address),
        Space::Io => claim_by_address(board, bus, Space::Io, request.address),
        Space::Cfg => claim_in_configuration(board, bus, request.address),
    }
}

fn claim_by_address(board: &Board, bus: u8, space: Space, address: u64) -> Place
    requires decodable { AreReadBack board.now }
    requires by_address { space ≢ Space.Cfg }
    ensures { result ≡ claim_by_address board.now bus space address
        (position_from (λ target. target.bus == bus &&
        list_any (range_holds space address) target.ranges) 0 board.now.targets) }
{
    match target_at(board.targets.as_slice(), bus, space, address) {
        Some(target) => Place::Target(target as u16),
        None => claim_by_bridge(board, bus, space, address),
    }
}

/// The place of the first target on the bus one of whose ranges holds the address.
fn target_at(targets: &[Target], bus: u8, space: Space, address: u64) -> Option<usize>
    ensures first { result ≡ position_from (λ target. target.bus == bus &&
        list_any (range_holds space address) target.ranges) 0 targets.now }
    ensures within { IfSome result (λ place. place < length targets.now) }
{
    targets.iter().position(|target| target.bus == bus
        && is_in_ranges(target.ranges.as_slice(), space, u128::from(address)))
}

fn claim_by_bridge(board: &Board, bus: u8, space: Space, address: u64) -> Place
    requires decodable { AreReadBack board.now }
    requires by_address { space ≢ Space.Cfg }
    ensures { result ≡ claim_by_bridge board.now bus space address
        (find (decodes_down bus space address) board.now.bridges) }
{
    let bridges = board.bridges.as_slice();
    match child_at(bridges, bus, space, address) {
        Some(child) => Place::Lane(Lane {
            bus: child.bus,
            up: false,
        }),
        None => claim_upwards(bridges, bus, space, address),
    }
}

/// The first bridge below the bus one of whose windows holds the address.
fn child_at(bridges: &[Bridge], bus: u8, space: Space, address: u64) -> Option<Bridge>
    requires { All IsReadBack bridges.now }
    ensures { result ≡ find (decodes_down bus space address) bridges.now }
{
    bridges.iter().copied().find(|bridge| bridge.parent == bus
        && claim_down(bridge, space, address))
}

fn claim_upwards(bridges: &[Bridge], bus: u8, space: Space, address: u64) -> Place
    requires decodable { All IsReadBack bridges.now }
    requires by_address { space ≢ Space.Cfg }
    ensures { result ≡ claim_upwards bus space address
        (find (λ bridge. bridge.bus == bus) bridges.now) }
{
    match bridge_to(bridges, bus) {
        Some(own) if claim_up(&own, space, address) => Place::Lane(Lane { bus, up: true }),
        _ => Place::Nobody,
    }
}

/// The bridge above the bus.
fn bridge_to(bridges: &[Bridge], bus: u8) -> Option<Bridge>
    ensures { result ≡ find (λ bridge. bridge.bus == bus) bridges.now }
{
    bridges.iter().copied().find(|bridge| bridge.bus == bus)
}

fn claim_in_configuration(board: &Board, bus: u8, address: u64) -> Place
    requires { AreReadBack board.now }
    ensures { result ≡ claim_in_configuration board.now bus address }
{
    if address % 4 == 0 {
        return claim_by_device(board, bus, device_in(address));
    }
    match child_to(board.bridges.as_slice(), bus, address) {
        Some(child) => Place::Lane(Lane {
            bus: child.bus,
            up: false,
        }),
        None => Place::Nobody,
    }
}

/// The device number of a configuration address.
fn device_in(address: u64) -> u8
    ensures { result ≡ device_in address }
{
    (address / 0x800 % 0x20) as u8
}

fn claim_by_device(board: &Board, bus: u8, device: u8) -> Place
    requires { AreReadBack board.now }
    ensures { result ≡ claim_by_device board.now bus device
        (position_from (λ target. target.bus == bus &&
        target.device == device) 0 board.now.targets) }
{
    match target_device(board.targets.as_slice(), bus, device) {
        Some(target) => Place::Target(target as u16),
        None => match bridge_device(board.bridges.as_slice(), bus, device) {
            Some(bridge) => Place::Header(bridge.bus),
            None => Place::Nobody,
        },
    }
}

/// The place of the first target on the bus with that device number.
fn target_device(targets: &[Target], bus: u8, device: u8) -> Option<usize>
    ensures first { result ≡
        position_from (λ target. target.bus == bus && target.device == device) 0 targets.now }
    ensures within { IfSome result (λ place. place < length targets.now) }
{
    targets
        .iter()
        .position(|target| target.bus == bus && target.device == device)
}

/// The first bridge below the bus with that device number.
fn bridge_device(bridges: &[Bridge], bus: u8, device: u8) -> Option<Bridge>
    ensures { result ≡
        find (λ bridge. bridge.parent == bus && bridge.device == device) bridges.now }
{
    bridges
        .iter()
        .copied()
        .find(|bridge| bridge.parent == bus && bridge.device == device)
}

/// The first bridge below the bus behind which the bus lies that a configuration address of type 1
/// names.
fn child_to(bridges: &[Bridge], bus: u8, address: u64) -> Option<Bridge>
    requires { All IsReadBack bridges.now }
    ensures { result ≡ find
        (λ bridge. bridge.parent == bus && nat_le bridge.bus (bus_in address) &&
        nat_le (bus_in address) bridge.last)
        bridges.now }
{
    bridges
        .iter()
        .copied()
        .find(|bridge| leads_on(bridge, bus, address))
}

fn leads_on(bridge: &Bridge, bus: u8, address: u64) -> bool
    requires { IsReadBack bridge.now }
    ensures { result
        ≡ (bridge.now.parent == bus && nat_le bridge.now.bus (bus_in address) &&
        nat_le (bus_in address) bridge.now.last) }
{
    decoding_is_claim();
    if bridge.parent != bus {
        return false;
    }
    match convert_cfg(bridge, low_half(address)) {
        CfgRoute::ToType0(_) | CfgRoute::PassDown(_) => true,
        CfgRoute::NotHere => false,
    }
}

/// The low 32 bits of a configuration address, in which its bus field lies.
fn low_half(address: u64) -> u32
    ensures { bus_in result ≡ bus_in address }
{
    (address % 0x1_0000_0000) as u32
}

ghost use Rattle.std.specs.Prelude.{◌≡◌, IsTrue};
ghost use Rattle.board_model.specs.Claims.{bus_in};
ghost use Rattle.board_model.specs.WellFormed.{is_well_formed_bridge};
ghost use Rattle.board_model.specs.Valid.{is_numbered};
ghost use Rattle.plain_decode.specs.Decoding.{route_of_address, type_0_of};

use crate::CfgRoute;
use board_headers::read_back;
use board_model::Bridge;

/// Where the configuration address of type 1 goes, by its bus field (bits 23 to 16) alone:
/// converted to type 0, with its bits 15 to 2, if it names the secondary bus; unchanged, if it
/// names a bus behind that, up to the subordinate bus; not through this bridge otherwise.
pub fn convert_cfg(bridge: &Bridge, address: u32) -> CfgRoute
    requires well_formed { IsTrue (is_well_formed_bridge bridge.now) }
    requires numbered { IsTrue (is_numbered bridge.now) }
    ensures { result ≡ route_of_address address bridge.now }
{
    let windows = read_back(bridge);
    let bus = bus_in(address);
    if bus == windows.secondary {
        CfgRoute::ToType0(type_0_of(address))
    } else if windows.secondary < bus && bus <= windows.subordinate {
        CfgRoute::PassDown(address)
    } else {
        CfgRoute::NotHere
    }
}

fn bus_in(address: u32) -> u8
    ensures { result ≡ bus_in address }
{
    (address >> 16 & 0xff) as u8
}

fn type_0_of(address: u32) -> u32
    ensures { result ≡ type_0_of address }
{
    4 * (address / 4 % 0x4000)
}

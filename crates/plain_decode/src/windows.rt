ghost use Rattle.std.specs.Prelude.{◌≡◌, IsTrue};
ghost use Rattle.board_model.specs.Claims.{bridge_holds};
ghost use Rattle.board_model.specs.WellFormed.{is_well_formed_bridge};
ghost use Rattle.board_model.specs.Valid.{is_numbered};
ghost use Rattle.plain_decode.specs.Decoding.{holds_elsewhere};

use board_headers::read_back;
use board_model::{Bridge, window_holds};
use pci_command::Space;

/// Positive decoding on the primary bus: whether the address lies in a window of the bridge for
/// that space, memory or I/O. Never in configuration space.
pub fn claim_down(bridge: &Bridge, space: Space, address: u64) -> bool
    requires well_formed { IsTrue (is_well_formed_bridge bridge.now) }
    requires numbered { IsTrue (is_numbered bridge.now) }
    ensures { result ≡ bridge_holds space address bridge.now }
{
    let windows = read_back(bridge);
    let address = u128::from(address);
    match space {
        Space::Mem => window_holds(windows.mem, address) || window_holds(windows.pref, address),
        Space::Io => window_holds(windows.io, address),
        Space::Cfg => false,
    }
}

/// Inverse decoding on the secondary bus: whether the address lies in no window of the bridge for
/// that space, memory or I/O. Never in configuration space.
pub fn claim_up(bridge: &Bridge, space: Space, address: u64) -> bool
    requires well_formed { IsTrue (is_well_formed_bridge bridge.now) }
    requires numbered { IsTrue (is_numbered bridge.now) }
    ensures { result ≡ holds_elsewhere space address bridge.now }
{
    match space {
        Space::Mem | Space::Io => !claim_down(bridge, space, address),
        Space::Cfg => false,
    }
}

ghost use Rattle.std.specs.Prelude.{◌≡◌, IsTrue, Ok};
ghost use Rattle.board_model.specs.declared.bridge.Bridge.{Bridge};
ghost use Rattle.board_model.specs.WellFormed.{is_well_formed_bridge};
ghost use Rattle.board_model.specs.Valid.{is_numbered};
ghost use Rattle.board_model.specs.HeaderBytes.{header_bytes};
ghost use Rattle.board_headers.specs.Windows.{reading_of, windows_of};
ghost use Rattle.board_headers.specs.Windows.{windows_in, has_whole_windows};

use crate::{Windows, decode};
use board_model::{Bridge, encode};

/// What the header of a bridge says: the bridge's own buses, windows and master abort mode.
pub fn read_back(bridge: &Bridge) -> Windows
    requires well_formed { IsTrue (is_well_formed_bridge bridge.now) }
    requires numbered { IsTrue (is_numbered bridge.now) }
    ensures { result ≡ windows_in bridge.now }
{
    encoding_is_read_back();
    match decode(&encode(bridge)) {
        Ok(windows) => windows,
        Err(_) => unreachable!(),
    }
}

/// The law of the round trip. The header of a bridge says the bridge's own buses, windows and
/// master abort mode where its registers can hold them, as they can those of a well-formed bridge;
/// and it is not refused where the bridge's buses are in order.
pub fn encoding_is_read_back()
    ensures whole_windows { (bridge : Bridge) → IsTrue (is_well_formed_bridge bridge)
        → IsTrue (has_whole_windows (windows_in bridge)) }
    ensures windows { (bridge : Bridge) → IsTrue (has_whole_windows (windows_in bridge))
        → windows_of (header_bytes bridge) ≡ windows_in bridge }
    ensures reading { (bridge : Bridge) → IsTrue (has_whole_windows (windows_in bridge))
        → IsTrue (is_numbered bridge) → reading_of (header_bytes bridge) ≡ Ok (windows_in bridge) }
{}

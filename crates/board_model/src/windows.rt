ghost use Rattle.std.specs.Prelude.{◌≡◌};
ghost use Rattle.board_model.specs.Claims.{window_holds};

use crate::Window;

/// Whether the address lies in the window, if it is there.
pub fn window_holds(window: Option<Window>, address: u128) -> bool
    ensures { result ≡ window_holds address window }
{
    match window {
        Some(window) => u128::from(window.base) <= address && address <= u128::from(window.limit),
        None => false,
    }
}

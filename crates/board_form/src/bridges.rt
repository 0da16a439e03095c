ghost use Rattle.std.specs.Prelude.{◌≡◌, ◌<◌};
ghost use Rattle.std.specs.List.{list_all, list_any};
ghost use Rattle.board_model.specs.WellFormed.{is_within, is_window, is_well_formed_bridge};
ghost use Rattle.board_model.specs.WellFormed.{has_bus, are_numbered_apart};

use board_model::{Bridge, MOST_DELAYED, MOST_POSTED, Window};

pub(crate) fn are_well_formed(bridges: &[Bridge]) -> bool
    ensures { result ≡ list_all is_well_formed_bridge bridges.now }
{
    bridges.iter().all(|bridge| is_well_formed(bridge))
}

fn is_well_formed(bridge: &Bridge) -> bool
    ensures { result ≡ is_well_formed_bridge bridge.now }
{
    bridge.bus >= 1
        && bridge.device <= 31
        && is_depth(bridge.posted, MOST_POSTED)
        && is_depth(bridge.delayed, MOST_DELAYED)
        && is_window(0x10_0000, 0x1_0000_0000, bridge.mem)
        && is_window(0x10_0000, 0x1_0000_0000_0000_0000, bridge.pref)
        && is_window(0x1000, 0x1_0000_0000, bridge.io)
}

fn is_depth(depth: u8, most: u8) -> bool
    ensures { result ≡ is_within 1 most depth }
{
    1 <= depth && depth <= most
}

fn is_window(unit: u128, end: u128, window: Option<Window>) -> bool
    requires { 0 < unit }
    ensures { result ≡ is_window unit end window }
{
    match window {
        None => true,
        Some(window) => {
            let base = u128::from(window.base);
            let limit = u128::from(window.limit);
            base <= limit && base % unit == 0 && (limit + 1) % unit == 0 && limit < end
        }
    }
}

pub(crate) fn are_numbered_apart(bridges: &[Bridge]) -> bool
    ensures { result ≡ are_numbered_apart bridges.now }
{
    match bridges.split_first() {
        None => true,
        Some((bridge, rest)) => !some_has_bus(rest, bridge.bus) && are_numbered_apart(rest),
    }
}

fn some_has_bus(bridges: &[Bridge], bus: u8) -> bool
    ensures { result ≡ list_any (has_bus bus) bridges.now }
{
    bridges.iter().any(|bridge| bridge.bus == bus)
}

ghost use Rattle.std.specs.Prelude.{◌≡◌};
ghost use Rattle.std.specs.List.{list_any};
ghost use Rattle.board_model.specs.Valid.{window_meets, windows_meet, bridges_meet, some_two};

use crate::spans::spans_meet;
use board_model::{Bridge, Window};

/// V3: whether windows of two of the bridges, on one bus, share an address.
pub(crate) fn some_meet(bridges: &[Bridge]) -> bool
    ensures { result ≡ some_two bridges_meet bridges.now }
{
    match bridges.split_first() {
        None => false,
        Some((bridge, rest)) => meets_one(bridge, rest) || some_meet(rest),
    }
}

fn meets_one(bridge: &Bridge, others: &[Bridge]) -> bool
    ensures { result ≡ list_any (bridges_meet bridge.now) others.now }
{
    others.iter().any(|other| bridges_meet(bridge, other))
}

fn bridges_meet(a: &Bridge, b: &Bridge) -> bool
    ensures { result ≡ bridges_meet a.now b.now }
{
    a.parent == b.parent
        && (windows_meet(a.mem, b.mem)
            || windows_meet(a.mem, b.pref)
            || windows_meet(a.pref, b.mem)
            || windows_meet(a.pref, b.pref)
            || windows_meet(a.io, b.io))
}

fn windows_meet(window: Option<Window>, other: Option<Window>) -> bool
    ensures { result ≡ windows_meet window other }
{
    match window {
        None => false,
        Some(window) => window_meets(other, window.base, u128::from(window.limit)),
    }
}

/// Whether the window, if it is open, meets the addresses from `base` to `limit`.
pub(crate) fn window_meets(window: Option<Window>, base: u64, limit: u128) -> bool
    ensures { result ≡ window_meets window base limit }
{
    match window {
        None => false,
        Some(window) => spans_meet(window.base, u128::from(window.limit), base, limit),
    }
}

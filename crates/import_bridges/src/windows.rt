ghost use Rattle.std.specs.Prelude.{◌≡◌, ◌<◌, ◌^◌};
ghost use Rattle.board_headers.specs.Windows.{memory_window, prefetchable_window};
ghost use Rattle.board_headers.specs.Windows.{prefetchable_upper, io_window, io_upper};
ghost use Rattle.board_headers.specs.Windows.{window_between, windows_of, has_bit};

use crate::header::{byte_at, decodes, register_2, register_4};
use crate::{NoWindow, TakenBridge, WindowFate};
use board_headers::{Windows, window_between};
use board_model::Window;
use import_text::Function;
use pci_command::Space;

fn open_in(fate: WindowFate) -> Option<Window> {
    match fate {
        WindowFate::Open(window) => Some(window),
        WindowFate::Absent | WindowFate::Closed(..) => None,
    }
}

/// Whether one window lies in the other.
pub fn lies_in(window: Window, outer: Window) -> bool {
    outer.base <= window.base && window.limit <= outer.limit
}

/// Whether two windows share an address.
pub fn shares(window: Window, other: Window) -> bool {
    window.base <= other.limit && other.base <= window.limit
}

fn lies_in_some(window: Window, outer: Option<Window>) -> bool {
    match outer {
        Some(outer) => lies_in(window, outer),
        None => false,
    }
}

fn shares_some(window: Window, other: Option<Window>) -> bool {
    match other {
        Some(other) => shares(window, other),
        None => false,
    }
}

fn lies_in_windows(space: Space, window: Window, bridge: &TakenBridge) -> bool {
    match space {
        Space::Mem => {
            lies_in_some(window, open_in(bridge.mem)) || lies_in_some(window, open_in(bridge.pref))
        }
        Space::Io => lies_in_some(window, open_in(bridge.io)),
        Space::Cfg => false,
    }
}

fn shares_windows(space: Space, window: Window, bridge: &TakenBridge) -> bool {
    match space {
        Space::Mem => {
            shares_some(window, open_in(bridge.mem)) || shares_some(window, open_in(bridge.pref))
        }
        Space::Io => shares_some(window, open_in(bridge.io)),
        Space::Cfg => false,
    }
}

/// Whether what is in the window passes down to the bus: it is the root, or one window of the
/// bridge to it has all of it.
pub fn is_reached(root: u8, taken: &[TakenBridge], bus: u8, space: Space, window: Window) -> bool {
    bus == root || some_leads_to(taken, bus, space, window)
}

fn some_leads_to(taken: &[TakenBridge], bus: u8, space: Space, window: Window) -> bool {
    taken.iter().any(|bridge| bridge.bus == bus && lies_in_windows(space, window, bridge))
}

/// The first bridge on the bus that passes some of the window.
pub fn first_passing(
    taken: &[TakenBridge],
    bus: u8,
    space: Space,
    window: Window,
) -> Option<&TakenBridge> {
    taken.iter().find(|bridge| bridge.parent == bus && shares_windows(space, window, bridge))
}

fn meeting(bridge: Option<&TakenBridge>) -> Option<NoWindow> {
    match bridge {
        Some(bridge) => Some(NoWindow::Meets(bridge.bus)),
        None => None,
    }
}

/// Where a window of a bridge lies: on which bus, in which space, and whether it is decoded.
#[derive(Clone, Copy)]
struct Side {
    root: u8,
    bus: u8,
    space: Space,
    is_on: bool,
}

fn why_closed(
    taken: &[TakenBridge],
    side: Side,
    is_zero: bool,
    window: Window,
) -> Option<NoWindow> {
    if is_zero {
        return Some(NoWindow::Zero);
    }
    if !side.is_on {
        return Some(NoWindow::Off);
    }
    if !is_reached(side.root, taken, side.bus, side.space, window) {
        return Some(NoWindow::InNone(side.bus));
    }
    meeting(first_passing(taken, side.bus, side.space, window))
}

fn window_fate(
    taken: &[TakenBridge],
    side: Side,
    zero_limit: u64,
    window: Option<Window>,
) -> WindowFate {
    match window {
        None => WindowFate::Absent,
        Some(window) => match why_closed(taken, side, window.limit == zero_limit, window) {
            None => WindowFate::Open(window),
            Some(reason) => WindowFate::Closed(window, reason),
        },
    }
}

fn side_of(root: u8, function: &Function, space: Space) -> Side {
    Side {
        root,
        bus: function.slot.bus,
        space,
        is_on: decodes(space, function),
    }
}

pub(crate) fn memory_fate(root: u8, taken: &[TakenBridge], function: &Function) -> WindowFate {
    let side = side_of(root, function, Space::Mem);
    let window = memory_window(function.header.as_slice());
    window_fate(taken, side, 0xf_ffff, window)
}

pub(crate) fn prefetchable_fate(
    root: u8,
    taken: &[TakenBridge],
    function: &Function,
) -> WindowFate {
    let header = function.header.as_slice();
    if register_2(header, 0x24) == 0 && register_2(header, 0x26) == 0 {
        return WindowFate::Absent;
    }
    let side = side_of(root, function, Space::Mem);
    window_fate(taken, side, 0xf_ffff, prefetchable_window(header))
}

pub(crate) fn io_fate(root: u8, taken: &[TakenBridge], function: &Function) -> WindowFate {
    let header = function.header.as_slice();
    if byte_at(header, 0x1c) == 0 && byte_at(header, 0x1d) == 0 {
        return WindowFate::Absent;
    }
    let side = side_of(root, function, Space::Io);
    window_fate(taken, side, 0xfff, io_window(header))
}

/// What a header says of buses and windows, whatever its command register says.
pub fn windows_of(header: &[u8]) -> Windows
    ensures { result ≡ windows_of header.now }
{
    Windows {
        primary: byte_at(header, 0x18),
        secondary: byte_at(header, 0x19),
        subordinate: byte_at(header, 0x1a),
        mem: memory_window(header),
        pref: prefetchable_window(header),
        io: io_window(header),
        mode: (register_2(header, 0x3e) >> 5) & 1 == 1,
    }
}

fn memory_window(header: &[u8]) -> Option<Window>
    ensures { result ≡ memory_window header.now }
{
    let base = u64::from(register_2(header, 0x20) >> 4);
    let limit = u64::from(register_2(header, 0x22) >> 4);
    window_between(base * 0x10_0000, limit * 0x10_0000 + 0xf_ffff)
}

fn prefetchable_window(header: &[u8]) -> Option<Window>
    ensures { result ≡ prefetchable_window header.now }
{
    let base_upper = u64::from(prefetchable_upper(header, 0x28));
    let limit_upper = u64::from(prefetchable_upper(header, 0x2c));
    let base = u64::from(register_2(header, 0x24) >> 4);
    let limit = u64::from(register_2(header, 0x26) >> 4);
    window_between(
        base_upper * 0x1_0000_0000 + base * 0x10_0000,
        limit_upper * 0x1_0000_0000 + limit * 0x10_0000 + 0xf_ffff,
    )
}

/// The upper half of a prefetchable base or limit.
fn prefetchable_upper(header: &[u8], offset: usize) -> u32
    requires { offset < 2 ^ 32 }
    ensures { result ≡ prefetchable_upper header.now offset }
{
    if byte_at(header, 0x24) & 0xf == 1 {
        register_4(header, offset)
    } else {
        0
    }
}

fn io_window(header: &[u8]) -> Option<Window>
    ensures { result ≡ io_window header.now }
{
    let base_upper = u64::from(io_upper(header, 0x30));
    let limit_upper = u64::from(io_upper(header, 0x32));
    let base = u64::from(byte_at(header, 0x1c) >> 4);
    let limit = u64::from(byte_at(header, 0x1d) >> 4);
    window_between(
        base_upper * 0x1_0000 + base * 0x1000,
        limit_upper * 0x1_0000 + limit * 0x1000 + 0xfff,
    )
}

/// The upper half of an I/O base or limit.
fn io_upper(header: &[u8], offset: usize) -> u16
    requires { offset < 2 ^ 32 }
    ensures { result ≡ io_upper header.now offset }
{
    if byte_at(header, 0x1c) & 0xf == 1 {
        register_2(header, offset)
    } else {
        0
    }
}

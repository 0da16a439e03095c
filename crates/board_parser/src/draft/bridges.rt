ghost use Rattle.std.specs.Prelude.{◌≡◌, ◌<◌, ◌≤◌, ◌||◌, ◌^◌, nat_le, length};
ghost use Rattle.std.specs.List.{list_any};
ghost use Rattle.board_model.specs.WellFormed.{has_bus, children_on};
ghost use Rattle.board_parser.specs.draft.Steps.{Changes};
ghost use Rattle.board_parser.specs.declared.draft.draft.AgentPlace.TheVariants.{Nobody};
ghost use Rattle.board_parser.specs.draft.Drafts.{board_of};
ghost use Rattle.board_parser.specs.draft.Bridges.{is_whole, are_windows_whole, is_ordered};
ghost use Rattle.board_parser.specs.draft.Bridges.{are_windows_ordered, put_bridge, add_bridge};
ghost use Rattle.board_parser.specs.draft.Bridges.{fault_of, is_too_wide, bridge_of, put_header};
ghost use Rattle.board_parser.specs.draft.Bridges.{add_header};
ghost use Rattle.board_model.specs.Limits.{most_children};

use crate::draft::add::close;
use crate::draft::lists::push;
use crate::draft::{AddFault, Draft};
use board_headers::{HeaderFault, Windows, decode};
use board_model::{Board, Bridge, MOST_BRIDGES, MOST_CHILDREN, Window};
use std::alloc::Global;
use text_faults::LineFault;

pub(crate) fn add_bridge(alloc: Global, draft: &mut Draft, bridge: Bridge) -> Result<(), AddFault>
    ensures { Changes result draft.new (add_bridge draft.old.wide (board_of draft.old) bridge) }
{
    close(alloc, draft)?;
    if !are_windows_whole(&bridge) {
        return Err(AddFault::Fault(LineFault::Unaligned));
    }
    if !are_windows_ordered(&bridge) {
        return Err(AddFault::Fault(LineFault::PastItsSpace));
    }
    put_bridge(alloc, draft, bridge)
}

fn put_bridge(alloc: Global, draft: &mut Draft, bridge: Bridge) -> Result<(), AddFault>
    requires { draft.old.owner ≡ Nobody }
    ensures { Changes result draft.new (put_bridge draft.old.wide draft.old.board bridge) }
{
    let bridges = draft.board.bridges.as_slice();
    if some_has_bus(bridges, bridge.bus) {
        return Err(AddFault::Fault(LineFault::BusUsed));
    }
    if bridges.len() >= MOST_BRIDGES || has_most_children(&draft.board, bridge.parent) {
        return Err(AddFault::Fault(LineFault::OverLimit));
    }
    push(alloc, &mut draft.board.bridges, bridge)?;
    Ok(())
}

fn some_has_bus(bridges: &[Bridge], bus: u8) -> bool
    ensures { result ≡ list_any (has_bus bus) bridges.now }
{
    bridges.iter().any(|bridge| bridge.bus == bus)
}

fn has_most_children(board: &Board, bus: u8) -> bool
    ensures { result ≡ nat_le most_children (children_on board.now bus) }
{
    let children = board
        .bridges
        .as_slice()
        .iter()
        .filter(|bridge| bridge.parent == bus)
        .count();
    children >= MOST_CHILDREN
}

fn are_windows_whole(bridge: &Bridge) -> bool
    ensures { result ≡ are_windows_whole bridge.now }
{
    is_whole(0x10_0000, bridge.mem)
        && is_whole(0x10_0000, bridge.pref)
        && is_whole(0x1000, bridge.io)
}

pub(crate) fn is_whole(unit: u128, window: Option<Window>) -> bool
    requires { 0 < unit }
    ensures { result ≡ is_whole unit window }
{
    match window {
        None => true,
        Some(window) => {
            u128::from(window.base) % unit == 0 && (u128::from(window.limit) + 1) % unit == 0
        }
    }
}

fn are_windows_ordered(bridge: &Bridge) -> bool
    ensures { result ≡ are_windows_ordered bridge.now }
{
    is_ordered(bridge.mem) && is_ordered(bridge.pref) && is_ordered(bridge.io)
}

pub(crate) fn is_ordered(window: Option<Window>) -> bool
    ensures { result ≡ is_ordered window }
{
    match window {
        None => true,
        Some(window) => window.base <= window.limit,
    }
}

pub(crate) fn add_header(
    alloc: Global,
    draft: &mut Draft,
    device: u8,
    bytes: &[u8; 64],
    posted: u8,
    delayed: u8,
) -> Result<(), AddFault>
    ensures { Changes result draft.new
        (add_header draft.old.wide (board_of draft.old) device bytes.now posted delayed) }
{
    close(alloc, draft)?;
    put_header(alloc, draft, device, posted, delayed, decode(bytes))
}

fn put_header(
    alloc: Global,
    draft: &mut Draft,
    device: u8,
    posted: u8,
    delayed: u8,
    reading: Result<Windows, HeaderFault>,
) -> Result<(), AddFault>
    requires { draft.old.owner ≡ Nobody }
    ensures { Changes result draft.new
        (put_header draft.old.wide draft.old.board device posted delayed reading) }
{
    match reading {
        Err(fault) => Err(AddFault::Fault(fault_of(fault))),
        Ok(windows) => {
            if is_too_wide(draft.wide, windows.pref) {
                return Err(AddFault::Fault(LineFault::WideWindow));
            }
            let bridge = bridge_of(windows, device, posted, delayed);
            put_bridge(alloc, draft, bridge)
        }
    }
}

fn fault_of(fault: HeaderFault) -> LineFault
    ensures { result ≡ fault_of fault }
{
    match fault {
        HeaderFault::H1 => LineFault::NotTypeOne,
        HeaderFault::H2 => LineFault::NotServed,
        HeaderFault::H3 => LineFault::NoBridgeNumbers,
    }
}

/// Whether the window is open and has addresses from 2^32 on, which the text may not have.
fn is_too_wide(wide: bool, window: Option<Window>) -> bool
    ensures { result ≡ is_too_wide wide window }
{
    match window {
        None => false,
        Some(window) => !wide && window.limit >= 0x1_0000_0000,
    }
}

fn bridge_of(windows: Windows, device: u8, posted: u8, delayed: u8) -> Bridge
    ensures { result ≡ bridge_of windows device posted delayed }
{
    Bridge {
        bus: windows.secondary,
        parent: windows.primary,
        device,
        last: windows.subordinate,
        mem: windows.mem,
        pref: windows.pref,
        io: windows.io,
        posted,
        delayed,
        mode: windows.mode,
    }
}

ghost use Rattle.std.specs.Prelude.{◌≡◌};
ghost use Rattle.std.specs.List.{list_any};
ghost use Rattle.board_model.specs.Valid.{meets_in, child_meets, has_range_in_window, ranges_meet};
ghost use Rattle.board_model.specs.Valid.{targets_meet, some_two, has_ranges_that_meet, last_of};

use crate::spans::{last_of, spans_meet};
use crate::windows::window_meets;
use board_model::{Board, Bridge, Range, Target};
use pci_command::Space;

/// V5: whether a range of a target shares an address with a window of a bridge below its bus.
pub(crate) fn has_range_in_window(board: &Board) -> bool
    ensures { result ≡ has_range_in_window board.now }
{
    let bridges = board.bridges.as_slice();
    board
        .targets
        .as_slice()
        .iter()
        .any(|target| some_child_meets(target, bridges))
}

fn some_child_meets(target: &Target, bridges: &[Bridge]) -> bool
    ensures { result ≡ list_any (child_meets target.now) bridges.now }
{
    bridges.iter().any(|bridge| child_meets(target, bridge))
}

fn child_meets(target: &Target, bridge: &Bridge) -> bool
    ensures { result ≡ child_meets target.now bridge.now }
{
    bridge.parent == target.bus && some_range_meets(target.ranges.as_slice(), bridge)
}

fn some_range_meets(ranges: &[Range], bridge: &Bridge) -> bool
    ensures { result ≡ list_any (λ range. meets_in range.space range bridge.now) ranges.now }
{
    ranges.iter().any(|range| range_meets(range, bridge))
}

/// Whether the range meets a window of the bridge for its space.
fn range_meets(range: &Range, bridge: &Bridge) -> bool
    ensures { result ≡ meets_in range.now.space range.now bridge.now }
{
    let last = last_of(range);
    match range.space {
        Space::Mem => {
            window_meets(bridge.mem, range.base, last)
                || window_meets(bridge.pref, range.base, last)
        }
        Space::Io => window_meets(bridge.io, range.base, last),
        Space::Cfg => false,
    }
}

/// V6: whether two ranges on one bus share an address of one space, also two of one target.
pub(crate) fn has_ranges_that_meet(board: &Board) -> bool
    ensures { result ≡ has_ranges_that_meet board.now }
{
    some_targets_meet(board.targets.as_slice())
        || some_target_meets_itself(board.targets.as_slice())
}

fn some_targets_meet(targets: &[Target]) -> bool
    ensures { result ≡ some_two targets_meet targets.now }
{
    match targets.split_first() {
        None => false,
        Some((target, rest)) => meets_one(target, rest) || some_targets_meet(rest),
    }
}

fn meets_one(target: &Target, others: &[Target]) -> bool
    ensures { result ≡ list_any (targets_meet target.now) others.now }
{
    others.iter().any(|other| targets_meet(target, other))
}

fn targets_meet(a: &Target, b: &Target) -> bool
    ensures { result ≡ targets_meet a.now b.now }
{
    a.bus == b.bus && some_meets_one(a.ranges.as_slice(), b.ranges.as_slice())
}

fn some_meets_one(ranges: &[Range], others: &[Range]) -> bool
    ensures { result ≡ list_any (λ range. list_any (ranges_meet range) others.now) ranges.now }
{
    ranges.iter().any(|range| range_meets_one(range, others))
}

fn range_meets_one(range: &Range, others: &[Range]) -> bool
    ensures { result ≡ list_any (ranges_meet range.now) others.now }
{
    others.iter().any(|other| ranges_meet(range, other))
}

fn ranges_meet(a: &Range, b: &Range) -> bool
    ensures { result ≡ ranges_meet a.now b.now }
{
    a.space == b.space && spans_meet(a.base, last_of(a), b.base, last_of(b))
}

fn some_target_meets_itself(targets: &[Target]) -> bool
    ensures { result ≡ list_any (λ target. some_two ranges_meet target.ranges) targets.now }
{
    targets
        .iter()
        .any(|target| some_ranges_meet(target.ranges.as_slice()))
}

fn some_ranges_meet(ranges: &[Range]) -> bool
    ensures { result ≡ some_two ranges_meet ranges.now }
{
    match ranges.split_first() {
        None => false,
        Some((range, rest)) => range_meets_one(range, rest) || some_ranges_meet(rest),
    }
}

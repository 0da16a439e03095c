ghost use Rattle.std.specs.Prelude.{◌≡◌, ◌<◌};
ghost use Rattle.std.specs.List.{list_all, list_any};
ghost use Rattle.board_model.specs.WellFormed.{is_within, is_block, is_range_in};
ghost use Rattle.board_model.specs.WellFormed.{is_well_formed_range, is_dword_in};
ghost use Rattle.board_model.specs.WellFormed.{is_well_formed_opening, is_well_formed_target};
ghost use Rattle.board_model.specs.WellFormed.{is_target_named, is_master_named};
ghost use Rattle.board_model.specs.WellFormed.{are_masters_named_apart, are_targets_named_apart};

use board_model::{MOST_DWORDS, MOST_OPENINGS, Master, Opening, Range, Target, registers_fit};
use pci_command::Space;

pub(crate) fn are_targets_well_formed(targets: &[Target]) -> bool
    ensures { result ≡ list_all is_well_formed_target targets.now }
{
    targets.iter().all(|target| is_target_well_formed(target))
}

fn is_target_well_formed(target: &Target) -> bool
    ensures { result ≡ is_well_formed_target target.now }
{
    let aborts = target.aborts.as_slice();
    let openings = target.openings.as_slice();
    let numbers = target.device <= 31
        && target.stalls <= 1_000_000
        && 1 <= target.burst
        && usize::from(target.burst) <= MOST_DWORDS;
    numbers
        && are_ranges_well_formed(target.ranges.as_slice())
        && registers_fit(target.ranges.as_slice(), 6)
        && are_ranges_well_formed(aborts)
        && aborts.len() <= 6
        && are_openings_well_formed(openings)
        && openings.len() <= MOST_OPENINGS
}

fn are_ranges_well_formed(ranges: &[Range]) -> bool
    ensures { result ≡ list_all is_well_formed_range ranges.now }
{
    ranges.iter().all(|range| is_range_well_formed(range))
}

fn is_range_well_formed(range: &Range) -> bool
    ensures { result ≡ is_well_formed_range range.now }
{
    match range.space {
        Space::Mem => is_block(range, 64, 0x1_0000_0000_0000_0000),
        Space::Io => is_block(range, 4, 0x1_0000_0000),
        Space::Cfg => false,
    }
}

fn is_block(range: &Range, unit: u64, end: u128) -> bool
    requires { 0 < unit }
    ensures { result ≡ is_block unit end range.now }
{
    let past = u128::from(range.base) + u128::from(range.size);
    let size = u128::from(range.size);
    range.base % unit == 0 && range.size % unit == 0 && range.size > 0 && size < end && past <= end
}

fn are_openings_well_formed(openings: &[Opening]) -> bool
    ensures { result ≡ list_all is_well_formed_opening openings.now }
{
    openings
        .iter()
        .all(|opening| is_dword_in(opening.space, opening.address))
}

/// Whether the address is that of a dword of memory or I/O space.
pub(crate) fn is_dword_in(space: Space, address: u64) -> bool
    ensures { result ≡ is_dword_in space address }
{
    match space {
        Space::Mem => address % 4 == 0,
        Space::Io => address % 4 == 0 && address < 0x1_0000_0000,
        Space::Cfg => false,
    }
}

pub(crate) fn are_targets_named_apart(masters: &[Master], targets: &[Target]) -> bool
    ensures { result ≡ are_targets_named_apart masters.now targets.now }
{
    match targets.split_first() {
        None => true,
        Some((target, rest)) => {
            let name = target.name.as_str();
            !some_target_named(rest, name)
                && !some_master_named(masters, name)
                && are_targets_named_apart(masters, rest)
        }
    }
}

pub(crate) fn are_masters_named_apart(masters: &[Master]) -> bool
    ensures { result ≡ are_masters_named_apart masters.now }
{
    match masters.split_first() {
        None => true,
        Some((master, rest)) => !some_master_named(rest, master.name.as_str())
            && are_masters_named_apart(rest),
    }
}

fn some_target_named(targets: &[Target], name: &str) -> bool
    ensures { result ≡ list_any (is_target_named name.now) targets.now }
{
    targets.iter().any(|target| target.name.as_str() == name)
}

fn some_master_named(masters: &[Master], name: &str) -> bool
    ensures { result ≡ list_any (is_master_named name.now) masters.now }
{
    masters.iter().any(|master| master.name.as_str() == name)
}

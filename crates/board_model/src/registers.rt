ghost use Rattle.std.specs.Prelude.{◌≡◌, ◌≤◌, nat_le};
ghost use Rattle.list_facts.specs.Lists.{total};
ghost use Rattle.board_model.specs.WellFormed.{registers_of};

use crate::Range;

/// Whether so many base address registers are enough for the ranges.
pub fn registers_fit(ranges: &[Range], most: u8) -> bool
    ensures { result ≡ nat_le (total registers_of ranges.now) most }
{
    match ranges.split_first() {
        None => true,
        Some((range, rest)) => {
            let own = registers_of(range);
            own <= most && registers_fit(rest, most - own)
        }
    }
}

/// How many base address registers a range takes: two where it begins at 4 GiB or above.
pub fn registers_of(range: &Range) -> u8
    ensures value { result ≡ registers_of range.now }
    ensures few { result ≤ 2 }
{
    if range.base < 0x1_0000_0000 { 1 } else { 2 }
}

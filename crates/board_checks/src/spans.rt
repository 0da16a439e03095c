ghost use Rattle.std.specs.Prelude.{◌≡◌};
ghost use Rattle.board_model.specs.Valid.{spans_meet, last_of};

use board_model::Range;

/// Whether the addresses from one base to its limit and from the other base to its limit meet.
pub(crate) fn spans_meet(base: u64, limit: u128, other_base: u64, other_limit: u128) -> bool
    ensures { result ≡ spans_meet base limit other_base other_limit }
{
    u128::from(base) <= other_limit && u128::from(other_base) <= limit
}

/// The last address of a range.
pub(crate) fn last_of(range: &Range) -> u128
    ensures { result ≡ last_of range.now }
{
    u128::from(range.base) + u128::from(range.size.saturating_sub(1))
}

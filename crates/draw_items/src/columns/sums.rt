ghost use Rattle.std.specs.Prelude.{◌≡◌};
ghost use Rattle.draw_items.specs.columns.Sums.{plus, times};

/// The sum of two places, or the greatest place where there is none so far out.
#[tactic(auto, unfolding(crate::specs::columns::Sums::plus))]
pub fn sum(a: u64, b: u64) -> u64
    ensures { result ≡ plus a b }
{
    a.saturating_add(b)
}

/// So many times a width, or the greatest place.
#[tactic(auto, unfolding(crate::specs::columns::Sums::times))]
pub fn product(a: u64, b: u64) -> u64
    ensures { result ≡ times a b }
{
    a.saturating_mul(b)
}

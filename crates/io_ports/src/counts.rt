ghost use Rattle.std.specs.Prelude.{◌≡◌, ◌↔◌, Contains, IsTrue};
ghost use Rattle.io_ports.specs.Faults.{next_count};

/// One more, or the last value.
pub(crate) fn one_more(count: u64) -> u64
    ensures { result ≡ next_count count }
{
    count.saturating_add(1)
}

/// Whether the call of this number is one of those that fail.
pub(crate) fn is_listed(failing: &[u32], call: u64) -> bool
    ensures { IsTrue result ↔ Contains failing.now call }
{
    failing.iter().any(|number| u64::from(*number) == call)
}

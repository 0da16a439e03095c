ghost use Rattle.std.specs.Prelude.{◌≡◌};
ghost use Rattle.run_waves.specs.Scenes.{shown_of};
ghost use Rattle.run_waves.specs.Dump.{same_shown};

/// What a signal of a lane, a master or a target reads.
#[derive(Clone, Copy, PartialEq, Eq)]
pub(crate) enum SignalReading {
    /// It is up, or down.
    Level(bool),
    /// A number.
    Number(u64),
}

/// Whether two readings are shown alike.
pub(crate) fn is_same(a: SignalReading, b: SignalReading) -> bool
    ensures { result ≡ same_shown (shown_of a) (shown_of b) }
{
    match (a, b) {
        (SignalReading::Level(a), SignalReading::Level(b)) => a == b,
        (SignalReading::Number(a), SignalReading::Number(b)) => a == b,
        (SignalReading::Level(_), SignalReading::Number(_)) => false,
        (SignalReading::Number(_), SignalReading::Level(_)) => false,
    }
}

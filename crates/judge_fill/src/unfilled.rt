use history_model::Why;
use pci_command::NoMemory;
use thiserror::Error;

/// Why the arrivals of events were not put anew.
#[derive(Clone, Copy, Debug, PartialEq, Eq, Error)]
pub enum Unfilled {
    /// This event, from 1 on and with arrivals counted, is an act that is not allowed behind the
    /// acts before it, wherever their arrivals are put.
    #[error("event {event} is not allowed: {why}")]
    NotRun { event: u32, why: Why },
    #[error("no memory")]
    NoMemory,
}

impl From<NoMemory> for Unfilled {
    ghost use Rattle.std.specs.Prelude.{◌≡◌};
    ghost use Rattle.judge_fill.specs.declared.unfilled.Unfilled.TheVariants.{NoMemory};

    ghost from_gives = { λ _ given. given ≡ NoMemory };

    fn from(_no_memory: NoMemory) -> Unfilled {
        Unfilled::NoMemory
    }
}

use history_model::Why;
use pci_command::NoMemory;
use thiserror::Error;

/// Why events were not taken to the end of all programs.
#[derive(Clone, Copy, Debug, PartialEq, Eq, Error)]
pub enum Unfinished {
    /// They are no run: this event, from 1 on, is the first that is not allowed after those before
    /// it.
    #[error("event {event} is not allowed: {why}")]
    NotRun { event: u32, why: Why },
    #[error("no memory")]
    NoMemory,
}

impl From<NoMemory> for Unfinished {
    ghost use Rattle.std.specs.Prelude.{◌≡◌};
    ghost use Rattle.judge_finish.specs.declared.unfinished.Unfinished.TheVariants.{NoMemory};

    ghost from_gives = { λ _ given. given ≡ NoMemory };

    fn from(_refused: NoMemory) -> Unfinished {
        Unfinished::NoMemory
    }
}

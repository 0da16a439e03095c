use crate::LineFault;
use pci_command::NoMemory;
use std::alloc::AllocFailed;
use std::fmt;
use thiserror::Error;

/// A fault, or that there was no memory to look for it.
#[derive(Clone, Copy, Debug, PartialEq, Eq, Drop, Error)]
#[error_bound(F: fmt::Display)]
pub enum OrNoMemory<F> {
    #[error("{0}")]
    Fault(F),
    #[error("no memory")]
    NoMemory,
}

impl<F> From<NoMemory> for OrNoMemory<F> {
    ghost use Rattle.std.specs.Prelude.{◌≡◌};
    ghost use Rattle.text_faults.specs.declared.or_no_memory.OrNoMemory.TheVariants.{NoMemory};

    ghost from_gives = { λ _ given. given ≡ NoMemory };

    fn from(_refused: NoMemory) -> OrNoMemory<F> {
        OrNoMemory::NoMemory
    }
}

impl<F, T: Drop> From<AllocFailed<T>> for OrNoMemory<F> {
    ghost use Rattle.std.specs.Prelude.{◌≡◌};
    ghost use Rattle.text_faults.specs.declared.or_no_memory.OrNoMemory.TheVariants.{NoMemory};

    ghost from_gives = { λ _ given. given ≡ NoMemory };

    fn from(_refused: AllocFailed<T>) -> OrNoMemory<F> {
        OrNoMemory::NoMemory
    }
}

impl From<LineFault> for OrNoMemory<LineFault> {
    ghost use Rattle.std.specs.Prelude.{◌≡◌};
    ghost use Rattle.text_faults.specs.declared.or_no_memory.OrNoMemory.TheVariants.{Fault};

    ghost from_gives = { λ fault given. given ≡ Fault fault };

    fn from(fault: LineFault) -> OrNoMemory<LineFault> {
        OrNoMemory::Fault(fault)
    }
}

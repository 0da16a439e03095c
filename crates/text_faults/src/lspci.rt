use thiserror::Error;

/// Why a text is not what `lspci` writes of a machine.
#[derive(Clone, Copy, Debug, PartialEq, Eq, Error)]
pub enum LspciFault {
    #[error("no line is a slot line")]
    NoSlot,
    #[error("a slot that was there before")]
    Repeated,
    #[error("a function lacks one of the rows 00, 10, 20 and 30")]
    NoRow,
    #[error("a device number above 1f")]
    HighDevice,
    #[error("the board of this machine is not valid, or its text is longer than 1 MiB")]
    NoBoard,
}

impl LspciFault {
    ghost use Rattle.std.specs.Prelude.{◌≡◌};
    ghost use Rattle.text_faults.specs.Lspci.{code_of};

    /// Its number in what is printed, from I1 on.
    pub fn code(self) -> u8
        ensures { result ≡ code_of self }
    {
        match self {
            LspciFault::NoSlot => 1,
            LspciFault::Repeated => 2,
            LspciFault::NoRow => 3,
            LspciFault::HighDevice => 4,
            LspciFault::NoBoard => 5,
        }
    }
}

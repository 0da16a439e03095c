ghost use Rattle.std.specs.Prelude.{◌≡◌};
ghost use Rattle.text_faults.specs.Device.{code_of};

use thiserror::Error;

/// What is wrong with the text of devices on a board, in the order in which the faults of one line
/// are looked for.
#[derive(Clone, Copy, Debug, PartialEq, Eq, Error)]
pub enum DeviceFault {
    /// The marks of the text are not there, or a line is none that may stand at its place.
    #[error("no line of a device text that may stand here")]
    Misshapen,
    /// An address of a dword is no multiple of 4, or a put passes ffffffff.
    #[error("an address that is no multiple of 4, or bytes past ffffffff")]
    Misplaced,
    #[error("a name that is no name, or is used already")]
    NameUsed,
    #[error("a target or a bus that is not there")]
    NotThere,
    #[error("more than a board may have")]
    OverLimit,
    /// A poll for the flag could be met otherwise than by the one write that raises it.
    #[error("a flag that is not clear")]
    NotClear,
}

impl DeviceFault {
    /// Its number in what is printed, from Q1 on.
    pub fn code(self) -> u8
        ensures { result ≡ code_of self }
    {
        match self {
            DeviceFault::Misshapen => 1,
            DeviceFault::Misplaced => 2,
            DeviceFault::NameUsed => 3,
            DeviceFault::NotThere => 4,
            DeviceFault::OverLimit => 5,
            DeviceFault::NotClear => 6,
        }
    }
}

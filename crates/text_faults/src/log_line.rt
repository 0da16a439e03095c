use thiserror::Error;

/// What is wrong with the lines of a log outside its board.
#[derive(Clone, Copy, Debug, PartialEq, Eq, Error)]
pub enum LogLineFault {
    #[error("the first line is not `pcilog 1`")]
    NoFirstLine,
    #[error("no line `log`")]
    NoLogLine,
    #[error("the last line is not `end`")]
    NoEndLine,
    #[error("a byte or a length that no line may have, or a word missing, too many or ill-formed")]
    Misread,
    #[error("a bus that is not there, or who is no master on it and no lane that ends on it")]
    NotThere,
    #[error("it begins before the last line of its bus ended")]
    TooEarly,
    #[error("a data word is missing, is one too many, or passes the end of the address space")]
    NoSuchData,
}

impl LogLineFault {
    ghost use Rattle.std.specs.Prelude.{◌≡◌};
    ghost use Rattle.text_faults.specs.LogLine.{code_of};

    /// Its number in what is printed, from G1 on.
    pub fn code(self) -> u8
        ensures { result ≡ code_of self }
    {
        match self {
            LogLineFault::NoFirstLine | LogLineFault::NoLogLine | LogLineFault::NoEndLine => 1,
            LogLineFault::Misread => 2,
            LogLineFault::NotThere => 3,
            LogLineFault::TooEarly => 4,
            LogLineFault::NoSuchData => 5,
        }
    }
}

use thiserror::Error;

/// What is wrong with the lines of a trace outside its board.
#[derive(Clone, Copy, Debug, PartialEq, Eq, Error)]
pub enum TraceLineFault {
    #[error("the first line is not `pcitrace 1`")]
    NoFirstLine,
    #[error("no line `events`")]
    NoEventsLine,
    #[error("a line longer than 256 bytes, or with a byte outside 20 to 7e")]
    Unreadable,
    #[error("its second word is no kind of event")]
    NoKind,
    #[error("a word is missing or too many, or spaces stand otherwise")]
    Misshapen,
    #[error("a word names nothing of the board, or is no number of its kind as printed")]
    Unknown,
    #[error("no `end` line with the number of the events")]
    WrongCount,
    #[error("a line behind the `end` line")]
    BehindEnd,
}

impl TraceLineFault {
    ghost use Rattle.std.specs.Prelude.{◌≡◌};
    ghost use Rattle.text_faults.specs.TraceLine.{code_of};

    /// Its number in what is printed, from X1 on.
    pub fn code(self) -> u8
        ensures { result ≡ code_of self }
    {
        match self {
            TraceLineFault::NoFirstLine => 1,
            TraceLineFault::NoEventsLine => 2,
            TraceLineFault::Unreadable => 3,
            TraceLineFault::NoKind => 4,
            TraceLineFault::Misshapen => 5,
            TraceLineFault::Unknown => 6,
            TraceLineFault::WrongCount => 7,
            TraceLineFault::BehindEnd => 8,
        }
    }
}

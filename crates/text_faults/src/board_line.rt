use thiserror::Error;

/// The letter of a fault of the board text.
#[derive(Clone, Copy, Debug, PartialEq, Eq)]
pub enum Family {
    /// A fault of the text.
    L,
    /// A fault of a line or of what it adds to the board.
    P,
    /// A fault of the header of a bridge.
    H,
}

/// What is wrong with a line of a board text.
#[derive(Clone, Copy, Debug, PartialEq, Eq, Error)]
pub enum LineFault {
    #[error("a byte that may not stand where it is")]
    BadByte,
    #[error("a number with too many digits")]
    TooWide,
    #[error("a line longer than 256 bytes")]
    TooLong,
    #[error("the first line is not `pciboard 1` or `pciboard 2`")]
    NoFirstLine,
    #[error("another word is expected")]
    WrongWord,
    #[error("a word is missing")]
    Missing,
    #[error("a word too many")]
    TooMany,
    #[error("not a number, name or word of its kind")]
    IllFormed,
    #[error("an address, base, size or limit that is no multiple of its unit")]
    Unaligned,
    #[error("a name that is used already")]
    NameUsed,
    #[error("no target or master before it")]
    NoOwner,
    #[error("more than eight data words, or words past their block of 64 bytes")]
    PastItsBlock,
    #[error("a secondary bus that another bridge has")]
    BusUsed,
    #[error("more than a board may have")]
    OverLimit,
    #[error("a range past the end of its space, or a window whose base is above its limit")]
    PastItsSpace,
    #[error("not a header of type 1")]
    NotTypeOne,
    #[error("a header whose command or bridge control is not served")]
    NotServed,
    #[error("a header whose bus numbers are those of no bridge")]
    NoBridgeNumbers,
    #[error("a header with a 64-bit window in a text that has none")]
    WideWindow,
}

impl LineFault {
    ghost use Rattle.std.specs.Prelude.{◌≡◌};
    ghost use Rattle.text_faults.specs.BoardLine.{family_of, code_of};

    pub fn family(self) -> Family
        ensures { result ≡ family_of self }
    {
        match self {
            LineFault::BadByte | LineFault::TooWide | LineFault::TooLong => Family::L,
            LineFault::NotTypeOne
            | LineFault::NotServed
            | LineFault::NoBridgeNumbers
            | LineFault::WideWindow => Family::H,
            _ => Family::P,
        }
    }

    /// Its number in its family.
    pub fn code(self) -> u8
        ensures { result ≡ code_of self }
    {
        match self {
            LineFault::BadByte | LineFault::NoFirstLine | LineFault::NotTypeOne => 1,
            LineFault::TooWide | LineFault::WrongWord | LineFault::NotServed => 2,
            LineFault::TooLong | LineFault::Missing | LineFault::NoBridgeNumbers => 3,
            LineFault::TooMany | LineFault::WideWindow => 4,
            LineFault::IllFormed => 5,
            LineFault::Unaligned => 6,
            LineFault::NameUsed => 7,
            LineFault::NoOwner => 8,
            LineFault::PastItsBlock => 9,
            LineFault::BusUsed => 10,
            LineFault::OverLimit => 11,
            LineFault::PastItsSpace => 12,
        }
    }
}

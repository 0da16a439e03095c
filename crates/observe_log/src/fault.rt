ghost use Rattle.std.specs.Prelude.{◌≡◌};
ghost use Rattle.observe_log.specs.Readers.{misread};

use text_faults::{LineFault, LogLineFault, OrNoMemory};
use thiserror::Error;

/// Why a text is not read as a log. Lines are numbered from 1, in the whole text.
#[derive(Clone, Copy, Debug, PartialEq, Eq, Error)]
pub enum LogFault {
    /// A fault outside the board, and which word of the line it is at, from 0 on.
    #[error("line {line}: {fault}")]
    Log {
        line: u32,
        word: usize,
        fault: LogLineFault,
    },
    /// A fault of the board.
    #[error("line {line}: {fault}")]
    Board {
        line: u32,
        fault: LineFault,
    },
}

/// A fault of a line at one of its words, from 0 on.
#[derive(Clone, Copy, PartialEq, Eq)]
pub(crate) struct AtWord {
    pub(crate) word: usize,
    pub(crate) fault: LogLineFault,
}

/// Why a line is not read.
pub(crate) type LineStop = OrNoMemory<AtWord>;

/// A word that is missing or none of its kind.
pub(crate) fn misread(word: usize) -> AtWord
    ensures { result ≡ misread word }
{
    AtWord {
        word,
        fault: LogLineFault::Misread,
    }
}

impl From<LogFault> for OrNoMemory<LogFault> {
    ghost use Rattle.std.specs.Prelude.{◌≡◌};
    ghost use Rattle.text_faults.specs.declared.or_no_memory.OrNoMemory.TheVariants.{Fault};

    ghost from_gives = { λ fault given. given ≡ Fault fault };

    fn from(fault: LogFault) -> OrNoMemory<LogFault> {
        OrNoMemory::Fault(fault)
    }
}

impl From<AtWord> for OrNoMemory<AtWord> {
    ghost use Rattle.std.specs.Prelude.{◌≡◌};
    ghost use Rattle.text_faults.specs.declared.or_no_memory.OrNoMemory.TheVariants.{Fault};

    ghost from_gives = { λ fault given. given ≡ Fault fault };

    fn from(fault: AtWord) -> OrNoMemory<AtWord> {
        OrNoMemory::Fault(fault)
    }
}

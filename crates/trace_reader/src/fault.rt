use text_faults::{LineFault, OrNoMemory, TraceLineFault};
use thiserror::Error;

/// Why a text is not read as a trace. Lines are numbered from 1, in the whole text.
#[derive(Clone, Copy, Debug, PartialEq, Eq, Error)]
pub enum TraceFault {
    /// A fault outside the board.
    #[error("line {line}: {fault}")]
    Trace { line: u32, fault: TraceLineFault },
    /// A fault of the board.
    #[error("line {line}: {fault}")]
    Board { line: u32, fault: LineFault },
}

impl From<TraceFault> for OrNoMemory<TraceFault> {
    ghost use Rattle.std.specs.Prelude.{◌≡◌};
    ghost use Rattle.text_faults.specs.declared.or_no_memory.OrNoMemory.TheVariants.{Fault};

    ghost from_gives = { λ fault given. given ≡ Fault fault };

    fn from(fault: TraceFault) -> OrNoMemory<TraceFault> {
        OrNoMemory::Fault(fault)
    }
}

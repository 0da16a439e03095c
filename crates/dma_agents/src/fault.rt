use crate::{Flag, Unclear};
use text_faults::{DeviceFault, LineFault, OrNoMemory};
use thiserror::Error;

/// Why a text is none of devices on a board. Lines are numbered from 1, in the whole text.
#[derive(Clone, Copy, Debug, PartialEq, Eq, Error)]
pub enum MakeFault {
    /// The first fault of the board.
    #[error("line {line}: {fault}")]
    Board { line: u32, fault: LineFault },
    /// The first other fault of the lines of devices, or of the text as a whole.
    #[error("line {line}: {fault}")]
    Device { line: u32, fault: DeviceFault },
    /// The first flag that is not clear, by the line that waits for it, and why it is not.
    #[error("line {line}: a flag that is not clear")]
    NotClear { line: u32, flag: Flag, why: Unclear },
}

impl From<MakeFault> for OrNoMemory<MakeFault> {
    ghost use Rattle.std.specs.Prelude.{◌≡◌};
    ghost use Rattle.text_faults.specs.declared.or_no_memory.OrNoMemory.TheVariants.{Fault};

    ghost from_gives = { λ fault given. given ≡ Fault fault };

    fn from(fault: MakeFault) -> OrNoMemory<MakeFault> {
        OrNoMemory::Fault(fault)
    }
}

use text_faults::{LineFault, OrNoMemory};

/// Why a statement was not added to a draft.
pub type AddFault = OrNoMemory<LineFault>;

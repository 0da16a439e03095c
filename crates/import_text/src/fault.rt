use text_faults::{AtLine, LspciFault, OrNoMemory};

/// Why a text was not read: its first fault, and the line where it is.
pub type ReadFault = OrNoMemory<AtLine<LspciFault>>;

use text_faults::{AtLine, LineFault, OrNoMemory};

/// Why a text was not read as a board: its first fault, and the line where it is.
pub type ParseFault = OrNoMemory<AtLine<LineFault>>;

//! Why a log is refused, in words.
mod act;
mod held;
mod unfound;

use crate::reason::Reason;
use crate::seen::act::{Refusal, reason_of_act};
use crate::seen::unfound::reason_of_none;
use observe_told::{RefusedLog, Retold};
use pci_command::NoMemory;
use std::alloc::Global;

/// Why a log is refused: nothing where it is more than may be.
pub fn reason_of_log(alloc: Global, refused: RefusedLog) -> Result<Option<Reason>, NoMemory> {
    let RefusedLog { log, board, told } = refused;
    match told {
        Retold::Acts(told) => reason_of_act(&Refusal {
            alloc,
            log,
            board,
            told,
        }),
        Retold::Nothing(unfound) => reason_of_none(alloc, log, board, *unfound),
    }
}

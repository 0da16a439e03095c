//! What a log tells, where `observe` refuses it: found again from the log alone, for the messages.
//! Nothing is claimed of it.
#![tactic(auto)]

use board_tree::Tree;
use command_observe::{LogTold, TreeLog, read_tree_log, tell};
use observe_found::Times;
use observe_order::Ordered;
use observe_told::{ActsTold, Log, RefusedLog, Retold, Unfound};
use pci_command::{List, NoMemory};
use program_status::Status;
use std::alloc::Global;

/// A log, the tree of the board that was found, or of its own where none was, and what it tells.
#[derive(Debug, Drop)]
pub struct Retelling {
    log: Log,
    tree: Tree,
    told: Retold,
}

impl Retelling {
    /// The same, lent.
    pub fn refused(&self) -> RefusedLog<'_> {
        RefusedLog {
            log: &self.log,
            board: self.tree.board(),
            told: &self.told,
        }
    }
}

/// What a log tells: nothing where the bytes are none.
pub fn retell(alloc: Global, input: &[u8]) -> Result<Option<Retelling>, NoMemory> {
    if input.len() >= 0x8000_0000 {
        return Ok(None);
    }
    match read_tree_log(alloc, input) {
        Ok(read) => Ok(Some(retold(alloc, read)?)),
        Err(Status::NoMemory) => Err(NoMemory),
        Err(_) => Ok(None),
    }
}

fn retold(alloc: Global, read: TreeLog) -> Result<Retelling, NoMemory> {
    let TreeLog { tree, log } = read;
    match tell(alloc, &tree, &log, Times::Meet) {
        Ok(told) => {
            drop(tree);
            Ok(with_acts(alloc, log, told))
        }
        Err(Unfound::NoMemory) => {
            drop(tree);
            drop(log);
            Err(NoMemory)
        }
        Err(unfound) => Ok(Retelling {
            log,
            tree,
            told: Retold::Nothing(unfound),
        }),
    }
}

/// The log with the acts that it tells.
fn with_acts(alloc: Global, log: Log, told: LogTold) -> Retelling {
    let LogTold {
        tree,
        unseen,
        ordered,
    } = told;
    drop(unseen);
    Retelling {
        log,
        tree,
        told: Retold::Acts(acts_told(alloc, ordered)),
    }
}

/// The acts up to the one that is refused, and those behind it: none where none is.
fn acts_told(alloc: Global, ordered: Ordered) -> ActsTold {
    let Ordered {
        run,
        lines,
        stopped,
    } = ordered;
    drop(run);
    match stopped {
        Some(told) => told,
        None => ActsTold {
            taken: lines.len(),
            acts: List::from_vec(Vec::new(alloc)),
            lines: List::from_vec(lines),
            refused: None,
        },
    }
}

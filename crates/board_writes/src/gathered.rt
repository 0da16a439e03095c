ghost use Rattle.std.specs.Prelude.{IfOk};
ghost use Rattle.board_writes.specs.Polls.{AreKept};

use crate::polls::Polls;
use crate::writers::Writers;
use board_tree::Tree;
use pci_command::NoMemory;
use std::alloc::Global;

/// What is kept of the writes and the polls of a board.
#[derive(Debug, Drop)]
pub struct Gathered {
    pub writers: Writers,
    pub polls: Polls,
}

/// It is gathered once.
pub fn gather(alloc: Global, tree: &Tree) -> Result<Gathered, NoMemory>
    ensures { IfOk result (λ gathered. AreKept tree.now gathered.writers gathered.polls) }
{
    let writers = Writers::with_raising(alloc, tree)?;
    let polls = Polls::new(alloc, tree, &writers)?;
    Ok(Gathered { writers, polls })
}

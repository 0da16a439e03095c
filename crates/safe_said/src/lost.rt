ghost use Rattle.std.specs.Prelude.{◌≡◌, slice_get};
ghost use Rattle.std.specs.Option.{option_map};
ghost use Rattle.safe_model.specs.said.Said.{said_lost, said_nowhere, owner_of};
ghost use Rattle.board_tree.specs.Decodable.{IsDecodable};
ghost use Rattle.safe_said.specs.AllSaid.{verdict};

use crate::verdict::Said;
use board_model::{Board, Op, Place};
use board_tree::route_of;
use pci_command::OpId;

/// What is said of a write without a word.
pub(crate) fn said_of_lost(board: &Board, write: OpId, op: &Op) -> Option<Said>
    requires { IsDecodable board.now }
    ensures { option_map verdict result ≡ said_lost (owner_of board.now write op.now (slice_get
        board.now.masters write.master)) }
{
    said_lost(owner_of(board, write, op))
}

/// What is said of a read or a poll without a word.
pub(crate) fn said_of_nowhere(board: &Board, read: OpId, op: &Op) -> Option<Said>
    requires { IsDecodable board.now }
    ensures { option_map verdict result ≡ said_nowhere (owner_of board.now read op.now (slice_get
        board.now.masters read.master)) }
{
    said_nowhere(owner_of(board, read, op))
}

/// Who claims an operation at the end of its way.
fn owner_of(board: &Board, at: OpId, op: &Op) -> Place
    requires { IsDecodable board.now }
    ensures { result ≡ owner_of board.now at op.now (slice_get board.now.masters at.master) }
{
    match board.masters.as_slice().get(usize::from(at.master)) {
        Some(master) => route_of(board, op, master.bus).owner,
        None => Place::Nobody,
    }
}

/// By who claims it there.
fn said_lost(owner: Place) -> Option<Said>
    ensures { option_map verdict result ≡ said_lost owner }
{
    match owner {
        Place::Target(_) => Some(Said::Lost { aborted: true }),
        Place::Nobody => Some(Said::Lost { aborted: false }),
        Place::Header(_) | Place::Lane(_) => None,
    }
}

/// The same of a read or a poll: the header of a bridge answers it.
fn said_nowhere(owner: Place) -> Option<Said>
    ensures { option_map verdict result ≡ said_nowhere owner }
{
    match owner {
        Place::Target(_) => Some(Said::Nowhere { aborted: true }),
        Place::Nobody => Some(Said::Nowhere { aborted: false }),
        Place::Header(_) | Place::Lane(_) => None,
    }
}

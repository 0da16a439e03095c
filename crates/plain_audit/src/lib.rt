//! Who was told of what in a run: the rule of producer and consumer, seen from one write and one
//! operation. PCI Local Bus Specification 2.2, appendix E (from memory).
#![tactic(auto)]

ghost use Rattle.std.specs.Prelude.{◌≡◌, ◌↔◌, ◌||◌, is_some, List as Items, Some, IsTrue, IsSome};
ghost use Rattle.std.specs.Prelude.{IfOk};
ghost use Rattle.pci_command.specs.declared.op_id.OpId.{OpId};
ghost use Rattle.board_model.specs.declared.board.Board.{Board};
ghost use Rattle.board_model.specs.Valid.{IsValid};
ghost use Rattle.board_model.specs.Requests.{op_of};
ghost use Rattle.history_model.specs.Runs.{Run, history_of};
ghost use Rattle.history_model.specs.Knowledge.{is_write, Told, Fresh};
ghost use Rattle.law_fresh.specs.Told.{was_told};
ghost use Rattle.law_audit.specs.Chains.{chain_of};
ghost use Rattle.law_audit.specs.Links.{IsChain};
ghost use Rattle.plain_audit.specs.Places.{knows_by, last_shown};

mod chains;
mod landings;
mod places;
mod readings;

use board_model::{Board, request_of};
use board_tree::Tree;
use chains::chain_from;
use history_model::Event;
pub use landings::{first_shown, has_landed};
use law_audit::chains_tell;
use law_fresh::{runs_are_fresh, told_is_known};
use machine_steps::is_write;
use pci_command::{List, NoMemory, OpId};
pub use places::Places;
use readings::{count_to_end, last_shown};
use std::alloc::Global;

/// Whether these events, a run, the first event first, told the operation of the write: false for
/// operations that are not on the board, and for what is no write. It keeps one place for each
/// master, and takes no memory; its time grows at least with the square of the number of events.
pub fn told(tree: &Tree, events: &[Event], write: OpId, read: OpId) -> bool
    requires { Run tree.now (history_of events.now) }
    ensures { IsTrue result ↔ Told tree.now (history_of events.now) write read }
{
    told_is_known();
    was_told(tree.board(), events, write, read)
}

fn was_told(board: &Board, events: &[Event], write: OpId, read: OpId) -> bool
    requires valid { IsValid board.now }
    requires run { Run board.now (history_of events.now) }
    ensures { result ≡ was_told board.now (history_of events.now) write read }
{
    if is_write(board, write) && is_there(board, read) {
        let places = Places::after(board, events, write);
        let count = count_to_end(events, read);
        is_told(board, &events[..count], read, &places)
    } else {
        false
    }
}

/// What the places say of the operation, which ended by these events if it ended with a value.
fn is_told(board: &Board, ended: &[Event], read: OpId, places: &Places) -> bool
    ensures { result ≡ (knows_by places.now.since read || is_some
        (last_shown board.now places.now.write places.now.since (history_of ended.now) read)) }
{
    places.knows(read) || last_shown(board, ended, read, places).is_some()
}

fn is_there(board: &Board, op: OpId) -> bool
    ensures { result ≡ is_some (op_of board.now op) }
{
    request_of(board, op, 0).is_some()
}

/// True: every run is fresh.
pub fn fresh(tree: &Tree, events: &[Event]) -> bool
    requires { Run tree.now (history_of events.now) }
    ensures always { IsTrue result }
    ensures fresh { Fresh tree.now (history_of events.now) }
{
    runs_are_fresh();
    let _valid = tree.board();
    let _events = events;
    true
}

/// How these events, a run, the first event first, told the operation of the write: from the write
/// on each operation of the chain tells the next, the last is the operation that was told. None
/// exactly where it was not told.
pub fn chain(
    alloc: Global,
    tree: &Tree,
    events: &[Event],
    write: OpId,
    read: OpId,
) -> Result<Option<List<OpId>>, NoMemory>
    requires { Run tree.now (history_of events.now) }
    ensures chain { IfOk result
        (λ found. found ≡ chain_of tree.now (history_of events.now) write read) }
    ensures told { IfOk result
        (λ found. IsSome found ↔ Told tree.now (history_of events.now) write read) }
    ensures tells { IfOk result (λ found. (chain : Items OpId) → found ≡ Some chain →
        IsChain tree.now (history_of events.now) write read chain) }
{
    told_is_known();
    chains_tell();
    chain_of(alloc, tree.board(), events, write, read)
}

fn chain_of(
    alloc: Global,
    board: &Board,
    events: &[Event],
    write: OpId,
    read: OpId,
) -> Result<Option<List<OpId>>, NoMemory>
    requires valid { IsValid board.now }
    requires run { Run board.now (history_of events.now) }
    ensures { IfOk result (λ found. found ≡ chain_of board.now (history_of events.now) write read) }
{
    if !was_told(board, events, write, read) {
        return Ok(None);
    }
    let places = Places::after(board, events, write);
    let chain = chain_from(alloc, board, events, &places, read)?;
    Ok(Some(List::from_vec(chain)))
}

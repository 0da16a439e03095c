ghost use Rattle.std.specs.Prelude.{◌≡◌, [], ◌∷◌, IfOk};
ghost use Rattle.history_model.specs.Runs.{history_of};
ghost use Rattle.law_fresh.specs.Aware.{aware_of};
ghost use Rattle.law_audit.specs.Chains.{first_shown, joined, chain_to, chain_from};
ghost use Rattle.plain_audit.specs.Places.{ArePlaces};

use crate::places::Places;
use crate::readings::{count_to_end, last_shown};
use board_model::Board;
use history_model::Event;
use pci_command::{NoMemory, OpId, same_op};
use std::alloc::Global;

/// The chain over the first operation of its master that knows of the write to the operation; empty
/// where its master does not know of it.
pub(crate) fn chain_from(
    alloc: Global,
    board: &Board,
    events: &[Event],
    places: &Places,
    read: OpId,
) -> Result<Vec<OpId>, NoMemory>
    requires { ArePlaces (aware_of board.now places.now.write (history_of events.now))
        places.now.since }
    ensures { IfOk result
        (λ chain. chain.items ≡ chain_from board.now places.now.write (history_of events.now) read
        ((aware_of board.now places.now.write (history_of events.now)).since read.master)) }
{
    match places.first_of(read.master) {
        None => Ok(Vec::new(alloc)),
        Some(first) => {
            let steps = board.masters.as_slice().len();
            let mut chain = chain_to(alloc, board, events, places, first, steps)?;
            join(&mut chain, first, read)?;
            Ok(chain)
        }
    }
}

/// The chain from the write to an operation with which its master came to know of it, over at most
/// so many masters.
fn chain_to(
    alloc: Global,
    board: &Board,
    events: &[Event],
    places: &Places,
    op: OpId,
    steps: usize,
) -> Result<Vec<OpId>, NoMemory>
    requires { ArePlaces (aware_of board.now places.now.write (history_of events.now))
        places.now.since }
    ensures { IfOk result (λ chain. chain.items ≡
        chain_to steps board.now places.now.write (history_of events.now) op) }
{
    if steps == 0 {
        return Ok(Vec::new(alloc));
    }
    if same_op(op, places.write) {
        return one(alloc, op);
    }
    match first_seen(board, events, op, places) {
        None => one(alloc, op),
        Some(seen) => match places.first_of(seen.master) {
            None => {
                let mut chain = one(alloc, seen)?;
                chain.push(op)?;
                Ok(chain)
            }
            Some(first) => {
                let mut chain = chain_to(alloc, board, events, places, first, steps - 1)?;
                join(&mut chain, first, seen)?;
                chain.push(op)?;
                Ok(chain)
            }
        },
    }
}

fn one(alloc: Global, op: OpId) -> Result<Vec<OpId>, NoMemory>
    ensures { IfOk result (λ chain. chain.items ≡ op ∷ []) }
{
    let mut chain = Vec::new(alloc);
    chain.push(op)?;
    Ok(chain)
}

/// The operation behind the chain, unless it is its last.
fn join(chain: &mut Vec<OpId>, last: OpId, op: OpId) -> Result<(), NoMemory>
    ensures { IfOk result (λ _. chain.new.items ≡ joined chain.old.items last op) }
{
    if !same_op(last, op) {
        chain.push(op)?;
    }
    Ok(())
}

/// Of the writes that the operation saw, if it ended with a value, that whose first landing is
/// earliest among those that are the write or were told of it.
fn first_seen(board: &Board, events: &[Event], op: OpId, places: &Places) -> Option<OpId>
    requires { ArePlaces (aware_of board.now places.now.write (history_of events.now))
        places.now.since }
    ensures { result ≡ first_shown board.now places.now.write (history_of events.now) op }
{
    let count = count_to_end(events, op);
    last_shown(board, &events[..count], op, places)
}

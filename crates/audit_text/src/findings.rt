ghost use Rattle.std.specs.Prelude.{◌≡◌, ◌≤◌, ◌++◌, ◌∷◌, length, Some, IfOk, OnOk};
ghost use Rattle.board_model.specs.Valid.{IsValid};
ghost use Rattle.history_model.specs.Runs.{Run, history_of};
ghost use Rattle.law_audit.specs.Audit.{findings};
ghost use Rattle.audit_text.specs.Notes.{no_notes, end_in};
ghost use Rattle.audit_text.specs.Search.{Searchable, TellsAlways};
ghost use Rattle.audit_text.specs.Found.{listed, finding_of, findings_in, findings_as, findings_by};

use crate::chains::chain_from;
use crate::ends::{Ended, end_in};
use crate::found::Found;
use crate::ledger::Ledger;
use crate::readings::Reading;
use crate::search::last_known;
use board_model::Board;
use board_tree::Tree;
use history_model::Event;
use pci_command::{List, NoMemory, OpId};
use std::alloc::Global;

/// What each read of a run, complete or not, knew of the dword that it read, in the order of the
/// ends: of each that ended with a value of its target and whose master knew of a write of that
/// dword before. Each event costs a step for each master, whatever landed before it: what a dword
/// tells is kept, and what a read knew of it is found by a binary search for each author that wrote
/// there, once for the last write and once for each operation of the chain.
pub fn findings_of(alloc: Global, tree: &Tree, events: &[Event]) -> Result<List<Found>, NoMemory>
    requires { Run tree.now (history_of events.now) }
    ensures { IfOk result (λ found. found ≡ findings tree.now (history_of events.now)) }
{
    let found = find_all(alloc, tree.board(), events)?;
    Ok(List::from_vec(found))
}

fn find_all(alloc: Global, board: &Board, events: &[Event]) -> Result<Vec<Found>, NoMemory>
    requires valid { IsValid board.now }
    requires run { Run board.now (history_of events.now) }
    ensures { IfOk result (λ found. found.items ≡ findings board.now (history_of events.now)) }
{
    let mut ledger = Ledger::new(alloc, board)?;
    find_with(alloc, board, events, &mut ledger)
}

/// The same, with a ledger in which nothing is noted down.
fn find_with(
    alloc: Global,
    board: &Board,
    events: &[Event],
    ledger: &mut Ledger,
) -> Result<Vec<Found>, NoMemory>
    requires valid { IsValid board.now }
    requires run { Run board.now (history_of events.now) }
    requires empty { ledger.old ≡ no_notes (length board.now.masters) }
    ensures { IfOk result (λ found. found.items ≡ findings board.now (history_of events.now)) }
{
    let mut all = Vec::new(alloc);
    for (index, event) in events.iter().enumerate() {
        ledger.happen(alloc, board, index, event)?;
        add_found(alloc, board, ledger, event, &mut all)?;
    }
    Ok(all)
}

/// What the read that the event ends knew, behind what was found.
fn add_found(
    alloc: Global,
    board: &Board,
    ledger: &Ledger,
    event: &Event,
    all: &mut Vec<Found>,
) -> Result<(), NoMemory>
    requires { Searchable ledger.now }
    ensures { OnOk result (all.new.items ≡ all.old.items ++
        findings_in (length board.now.masters) ledger.now (end_in event.now)) }
{
    match found_in(alloc, board, ledger, event)? {
        Some(found) => {
            all.push(found)?;
            Ok(())
        }
        None => Ok(()),
    }
}

/// What the read that the event ends knew.
fn found_in(
    alloc: Global,
    board: &Board,
    ledger: &Ledger,
    event: &Event,
) -> Result<Option<Found>, NoMemory>
    requires { Searchable ledger.now }
    ensures { IfOk result (λ found. listed found ≡
        findings_in (length board.now.masters) ledger.now (end_in event.now)) }
{
    match end_in(event) {
        None => Ok(None),
        Some(ended) => found_as(alloc, board, ledger, ended),
    }
}

fn found_as(
    alloc: Global,
    board: &Board,
    ledger: &Ledger,
    ended: Ended,
) -> Result<Option<Found>, NoMemory>
    requires { Searchable ledger.now }
    ensures { IfOk result (λ found. listed found ≡
        findings_as (length board.now.masters) ledger.now ended.op ended.value) }
{
    match ended.value {
        None => Ok(None),
        Some(_) => match ledger.got(ended.op) {
            None => Ok(None),
            Some(reading) => found_by(alloc, board, ledger, ended.op, &reading),
        },
    }
}

fn found_by(
    alloc: Global,
    board: &Board,
    ledger: &Ledger,
    read: OpId,
    reading: &Reading,
) -> Result<Option<Found>, NoMemory>
    requires { Searchable ledger.now }
    ensures { IfOk result (λ found. listed found ≡
        findings_by (length board.now.masters) ledger.now read (Some reading.now)) }
{
    match last_known(ledger, reading, read) {
        None => Ok(None),
        Some(write) => {
            let found = found_of(alloc, board, ledger, read, reading, write)?;
            Ok(Some(found))
        }
    }
}

fn found_of(
    alloc: Global,
    board: &Board,
    ledger: &Ledger,
    read: OpId,
    reading: &Reading,
    write: OpId,
) -> Result<Found, NoMemory>
    requires { TellsAlways ledger.now write }
    ensures { IfOk result (λ found. listed (Some found) ≡
        finding_of (length board.now.masters) ledger.now read reading.now (Some write)) }
{
    let masters = board.masters.as_slice().len();
    let chain = chain_from(alloc, ledger, masters, write, read)?;
    Ok(Found {
        read,
        target: reading.target,
        space: reading.space,
        address: reading.address,
        value: reading.value,
        write,
        chain: List::from_vec(chain),
    })
}

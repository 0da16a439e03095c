ghost use Rattle.std.specs.Prelude.{◌≡◌, ◌<◌, ◌≤◌, IfOk, OnOk};
ghost use Rattle.board_parser.specs.draft.Steps.{Changes};
ghost use Rattle.board_parser.specs.draft.Drafts.{board_of, draft_of, with_owner};
ghost use Rattle.board_parser.specs.draft.Add.{add, tries_in};
ghost use Rattle.board_parser.specs.draft.Counts.{IsCountOf};

use crate::draft::bridges::{add_bridge, add_header};
use crate::draft::counts::Counts;
use crate::draft::details::{abort, burst, claim, identify, open_word, operate, stall};
use crate::draft::lists::push;
use crate::draft::masters::add_master;
use crate::draft::plans::{add_discard, add_drop};
use crate::draft::targets::add_target;
use crate::draft::{AddFault, AgentPlace, Draft};
use board_model::{Board, tries_of};
use board_statements::Statement;
use pci_command::NoMemory;
use std::alloc::Global;
use std::mem;

/// The board of a draft.
pub(crate) fn board_of(alloc: Global, draft: Draft) -> Result<Board, NoMemory>
    ensures { IfOk result (λ board. board ≡ board_of draft) }
{
    let Draft {
        wide: _,
        mut board,
        owner,
    } = draft;
    join(alloc, &mut board, owner)?;
    Ok(board)
}

/// Ends the details of the target or master that began last.
pub(crate) fn close(alloc: Global, draft: &mut Draft) -> Result<(), NoMemory>
    ensures { OnOk result (draft.new ≡ draft_of draft.old.wide (board_of draft.old)) }
{
    let owner = mem::replace(&mut draft.owner, AgentPlace::Nobody);
    join(alloc, &mut draft.board, owner)
}

/// A target or master stands behind the others of its kind.
fn join(alloc: Global, board: &mut Board, owner: AgentPlace) -> Result<(), NoMemory>
    ensures { OnOk result (board.new ≡ with_owner board.old owner) }
{
    match owner {
        AgentPlace::Nobody => Ok(()),
        AgentPlace::OfTarget(target) => push(alloc, &mut board.targets, target),
        AgentPlace::OfMaster(master) => push(alloc, &mut board.masters, master),
    }
}

/// One more statement of a draft that has these counts.
pub(crate) fn add(
    alloc: Global,
    draft: &mut Draft,
    counts: &Counts,
    statement: Statement,
) -> Result<(), AddFault>
    requires { IsCountOf counts.now (board_of draft.old) }
    ensures { Changes result draft.new (add draft.old statement) }
{
    match statement {
        Statement::NewBridge(bridge) => add_bridge(alloc, draft, bridge),
        Statement::NewHeader {
            device,
            bytes,
            posted,
            delayed,
        } => add_header(alloc, draft, device, &bytes, posted, delayed),
        Statement::NewTarget { name, bus, device } => {
            let fault = counts.agent_fault(&name, bus);
            add_target(alloc, draft, fault, name, bus, device)
        }
        Statement::Identifies { vendor, model } => identify(draft, vendor, model),
        Statement::Stalls(tokens) => stall(draft, tokens),
        Statement::Bursts(phases) => burst(draft, phases),
        Statement::Claims(range) => claim(alloc, draft, range),
        Statement::Aborts(range) => abort(alloc, draft, range),
        Statement::Opens(opening) => open_word(alloc, draft, opening),
        Statement::NewMaster { name, bus } => {
            let fault = counts.agent_fault(&name, bus);
            add_master(alloc, draft, fault, name, bus)
        }
        Statement::Does { op, too_many } => operate(alloc, draft, counts.operations, op, too_many),
        Statement::Discards(planned) => add_discard(alloc, draft, planned),
        Statement::Drops(planned) => add_drop(alloc, draft, planned),
    }
}

/// How many operations a statement adds, a poll counted by its tries.
pub(crate) fn tries_in(statement: &Statement) -> u32
    ensures { result ≡ tries_in statement.now }
{
    match statement {
        Statement::Does { op, .. } => tries_of(op),
        _ => 0,
    }
}

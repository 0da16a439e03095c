ghost use Rattle.std.specs.Prelude.{◌≡◌, ◌+◌, ◌≤◌, ◌||◌};
ghost use Rattle.board_model.specs.Requests.{tries_of};
ghost use Rattle.board_parser.specs.draft.Steps.{Changes};
ghost use Rattle.board_parser.specs.draft.Drafts.{board_of};
ghost use Rattle.board_parser.specs.draft.Targets.{agent_fault};
ghost use Rattle.board_parser.specs.draft.Masters.{add_master, is_aligned, passes_block, add_op};

use crate::draft::add::close;
use crate::draft::lists::{empty, push};
use crate::draft::{AddFault, AgentPlace, Draft};
use board_model::{MOST_OPS, MOST_TRIES, Master, Name, Op, tries_of};
use std::alloc::Global;
use text_faults::LineFault;

/// A master, unless a name or a limit forbids it by that fault.
pub(crate) fn add_master(
    alloc: Global,
    draft: &mut Draft,
    fault: Option<LineFault>,
    name: Name,
    bus: u8,
) -> Result<(), AddFault>
    requires { fault ≡ agent_fault (board_of draft.old) name bus }
    ensures { Changes result draft.new (add_master draft.old.wide (board_of draft.old) name bus) }
{
    close(alloc, draft)?;
    if let Some(fault) = fault {
        return Err(AddFault::Fault(fault));
    }
    draft.owner = AgentPlace::OfMaster(Master {
        name,
        bus,
        ops: empty(alloc),
    });
    Ok(())
}

fn is_aligned(op: &Op) -> bool
    ensures { result ≡ is_aligned op.now }
{
    match op {
        Op::Read { address, .. } | Op::Write { address, .. } | Op::Poll { address, .. } => {
            *address % 4 == 0
        }
        Op::CfgRead { .. } | Op::CfgWrite { .. } => true,
    }
}

/// Whether the dwords of a write go past the aligned block of 64 bytes in which it begins.
fn passes_block(op: &Op) -> bool
    ensures { result ≡ passes_block op.now }
{
    match op {
        Op::Write {
            address,
            phases,
            ..
        } => *address % 64 + 4 * phases.len() as u64 > 64,
        Op::Read { .. } | Op::CfgRead { .. } | Op::CfgWrite { .. } | Op::Poll { .. } => false,
    }
}

/// One more operation, where all masters have so many, each poll counted by its tries.
pub(crate) fn add_op(
    alloc: Global,
    before: u32,
    op: Op,
    too_many: bool,
    master: &mut Master,
) -> Result<(), AddFault>
    ensures { Changes result master.new (add_op before op too_many master.old) }
{
    if !is_aligned(&op) {
        return Err(AddFault::Fault(LineFault::Unaligned));
    }
    if too_many || passes_block(&op) {
        return Err(AddFault::Fault(LineFault::PastItsBlock));
    }
    if master.ops.as_slice().len() >= MOST_OPS
        || u64::from(before) + u64::from(tries_of(&op)) > u64::from(MOST_TRIES)
    {
        return Err(AddFault::Fault(LineFault::OverLimit));
    }
    push(alloc, &mut master.ops, op)?;
    Ok(())
}

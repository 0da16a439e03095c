ghost use Rattle.std.specs.Prelude.{◌≡◌};
ghost use Rattle.board_model.specs.WellFormed.{operations_in};
ghost use Rattle.board_parser.specs.draft.Steps.{Changes};
ghost use Rattle.board_parser.specs.draft.Drafts.{board_of};
ghost use Rattle.board_parser.specs.draft.Targets.{on_target, set_identity, set_stalls, set_burst};
ghost use Rattle.board_parser.specs.draft.Targets.{add_range, add_abort, add_opening};
ghost use Rattle.board_parser.specs.draft.Masters.{does};

use crate::draft::masters::add_op;
use crate::draft::targets::{add_abort, add_opening, add_range};
use crate::draft::{AddFault, AgentPlace, Draft};
use board_model::{Op, Opening, Range};
use std::alloc::Global;
use text_faults::LineFault;

pub(crate) fn identify(draft: &mut Draft, vendor: u16, model: u16) -> Result<(), AddFault>
    ensures { Changes result draft.new (on_target draft.old (set_identity vendor model)) }
{
    match &mut draft.owner {
        AgentPlace::OfTarget(target) => {
            target.vendor = vendor;
            target.model = model;
            Ok(())
        }
        AgentPlace::Nobody | AgentPlace::OfMaster(_) => Err(AddFault::Fault(LineFault::NoOwner)),
    }
}

pub(crate) fn stall(draft: &mut Draft, tokens: u32) -> Result<(), AddFault>
    ensures { Changes result draft.new (on_target draft.old (set_stalls tokens)) }
{
    match &mut draft.owner {
        AgentPlace::OfTarget(target) => {
            target.stalls = tokens;
            Ok(())
        }
        AgentPlace::Nobody | AgentPlace::OfMaster(_) => Err(AddFault::Fault(LineFault::NoOwner)),
    }
}

pub(crate) fn burst(draft: &mut Draft, phases: u8) -> Result<(), AddFault>
    ensures { Changes result draft.new (on_target draft.old (set_burst phases)) }
{
    match &mut draft.owner {
        AgentPlace::OfTarget(target) => {
            target.burst = phases;
            Ok(())
        }
        AgentPlace::Nobody | AgentPlace::OfMaster(_) => Err(AddFault::Fault(LineFault::NoOwner)),
    }
}

pub(crate) fn claim(alloc: Global, draft: &mut Draft, range: Range) -> Result<(), AddFault>
    ensures { Changes result draft.new (on_target draft.old (add_range draft.old.wide range)) }
{
    match &mut draft.owner {
        AgentPlace::OfTarget(target) => add_range(alloc, draft.wide, range, target),
        AgentPlace::Nobody | AgentPlace::OfMaster(_) => Err(AddFault::Fault(LineFault::NoOwner)),
    }
}

pub(crate) fn abort(alloc: Global, draft: &mut Draft, range: Range) -> Result<(), AddFault>
    ensures { Changes result draft.new (on_target draft.old (add_abort draft.old.wide range)) }
{
    match &mut draft.owner {
        AgentPlace::OfTarget(target) => add_abort(alloc, draft.wide, range, target),
        AgentPlace::Nobody | AgentPlace::OfMaster(_) => Err(AddFault::Fault(LineFault::NoOwner)),
    }
}

pub(crate) fn open_word(alloc: Global, draft: &mut Draft, opening: Opening) -> Result<(), AddFault>
    ensures { Changes result draft.new (on_target draft.old (add_opening opening)) }
{
    match &mut draft.owner {
        AgentPlace::OfTarget(target) => add_opening(alloc, opening, target),
        AgentPlace::Nobody | AgentPlace::OfMaster(_) => Err(AddFault::Fault(LineFault::NoOwner)),
    }
}

/// An operation of a draft that has so many, each poll counted by its tries.
pub(crate) fn operate(
    alloc: Global,
    draft: &mut Draft,
    operations: u32,
    op: Op,
    too_many: bool,
) -> Result<(), AddFault>
    requires { operations ≡ operations_in (board_of draft.old).masters }
    ensures { Changes result draft.new (does draft.old op too_many) }
{
    match &mut draft.owner {
        AgentPlace::OfMaster(master) => add_op(alloc, operations, op, too_many, master),
        AgentPlace::Nobody | AgentPlace::OfTarget(_) => Err(AddFault::Fault(LineFault::NoOwner)),
    }
}

ghost use Rattle.board_parser.specs.draft.Steps.{Changes};
ghost use Rattle.board_parser.specs.draft.Drafts.{board_of};
ghost use Rattle.board_parser.specs.draft.Plans.{add_discard, add_drop};

use crate::draft::add::close;
use crate::draft::lists::push;
use crate::draft::{AddFault, Draft};
use board_model::{MOST_OPS, MOST_PLANS, Planned};
use std::alloc::Global;
use text_faults::LineFault;

pub(crate) fn add_discard(
    alloc: Global,
    draft: &mut Draft,
    planned: Planned,
) -> Result<(), AddFault>
    ensures { Changes result draft.new (add_discard draft.old.wide (board_of draft.old) planned) }
{
    close(alloc, draft)?;
    if draft.board.discards.as_slice().len() >= MOST_PLANS {
        return Err(AddFault::Fault(LineFault::OverLimit));
    }
    push(alloc, &mut draft.board.discards, planned)?;
    Ok(())
}

pub(crate) fn add_drop(alloc: Global, draft: &mut Draft, planned: Planned) -> Result<(), AddFault>
    ensures { Changes result draft.new (add_drop draft.old.wide (board_of draft.old) planned) }
{
    close(alloc, draft)?;
    if draft.board.drops.as_slice().len() >= MOST_OPS {
        return Err(AddFault::Fault(LineFault::OverLimit));
    }
    push(alloc, &mut draft.board.drops, planned)?;
    Ok(())
}

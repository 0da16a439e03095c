ghost use Rattle.std.specs.Prelude.{◌≡◌, OnOk, slice_get};
ghost use Rattle.audit_clocks.specs.Tables.{value_of};
ghost use Rattle.untagged_run.specs.told.Knowers.{Presents, StartsBy};

use audit_clocks::{Numbers, OpTable};
use history_model::{By, Event};
use pci_command::{NoMemory, OpId};
use std::alloc::Global;

/// What a master knows as it first presents an operation is noted.
pub(crate) fn present(
    alloc: Global,
    known: &[Numbers],
    starts: &mut OpTable<Numbers>,
    event: &Event,
) -> Result<(), NoMemory>
    ensures { OnOk result (Presents event.now known.now starts.old starts.new) }
{
    match *event {
        Event::Act {
            by: By::Master,
            op,
            ..
        } => start(alloc, known, starts, op),
        Event::Act { .. } | Event::Arrive { .. } => Ok(()),
    }
}

fn start(
    alloc: Global,
    known: &[Numbers],
    starts: &mut OpTable<Numbers>,
    op: OpId,
) -> Result<(), NoMemory>
    ensures { OnOk result (StartsBy op (value_of op starts.old) (slice_get known.now op.master)
        starts.old starts.new) }
{
    if starts.get(op).is_some() {
        return Ok(());
    }
    match known.get(usize::from(op.master)) {
        None => Ok(()),
        Some(numbers) => {
            let numbers = numbers.copied(alloc)?;
            starts.put(op, numbers)
        }
    }
}

ghost use Rattle.std.specs.Prelude.{◌≡◌, ◌<◌, length, max};
ghost use Rattle.std.specs.Option.{option_copied};
ghost use Rattle.audit_clocks.specs.Rows.{number, own, Raises};
ghost use Rattle.audit_clocks.specs.Tables.{list_in};
ghost use Rattle.history_model.specs.Program.{ended};
ghost use Rattle.machine_steps.specs.Endings.{ended_op};
ghost use Rattle.untagged_run.specs.told.Knowers.{told_at, Learns, LearnsBy};

use crate::Got;
use audit_clocks::Numbers;
use history_model::Event;
use machine_steps::ended_op;
use pci_command::OpId;
use std::alloc::Global;

/// The master whose operation the event ends knows it, and what the read tells that it got.
pub(crate) fn learn(
    known: &mut Vec<Numbers>,
    alloc: Global,
    told: &[Option<Numbers>],
    event: &Event,
    got: Option<Got>,
)
    ensures { LearnsBy (ended_op (ended event.now)) (told_at told.now got)
        known.old.items known.new.items }
{
    match ended_op(event) {
        None => (),
        Some(op) => learn_op(known, alloc, told_at(told, got), op),
    }
}

/// What was told by the Read event of what was got.
fn told_at(told: &[Option<Numbers>], got: Option<Got>) -> Option<&Numbers>
    ensures { option_copied result ≡ told_at told.now got }
{
    match got {
        None => None,
        Some(got) => match told.get((got.event as usize).saturating_sub(1)) {
            Some(numbers) => numbers.as_ref(),
            None => None,
        },
    }
}

#[tactic(auto, using(crate::proofs::told::RaiseLemmas::learns_inside, crate::proofs::told::RaiseLemmas::learns_outside))]
fn learn_op(known: &mut Vec<Numbers>, alloc: Global, told: Option<&Numbers>, op: OpId)
    ensures { Learns op (list_in (option_copied told.entry)) known.old.items known.new.items }
{
    let master = usize::from(op.master);
    if master < known.len() {
        raise(&mut known[master], alloc, told, op);
    }
}

fn raise(numbers: &mut Numbers, alloc: Global, told: Option<&Numbers>, op: OpId)
    ensures { Raises numbers.old numbers.new (λ author.
        max (number (list_in (option_copied told.entry)) author) (own op author)) }
{
    match told {
        Some(told) => numbers.raise(told, op),
        None => numbers.raise(&Numbers::empty(alloc), op),
    }
}

ghost use Rattle.std.specs.Prelude.{◌≡◌};
ghost use Rattle.std.specs.Option.{option_map};
ghost use Rattle.history_model.specs.Program.{master_outcome, ending_of};
ghost use Rattle.history_model.specs.Knowledge.{value_in};
ghost use Rattle.audit_text.specs.Notes.{end_in, ended_of};

use history_model::{By, Event, Step};
use pci_command::{OpId, Outcome};

/// An operation that ended at its master, and its value, if it has one.
#[derive(Clone, Copy)]
pub(crate) struct Ended {
    pub(crate) op: OpId,
    pub(crate) value: Option<u32>,
}

/// The operation that the event ends at its master.
pub(crate) fn end_in(event: &Event) -> Option<Ended>
    ensures { result ≡ end_in event.now }
{
    match *event {
        Event::Act {
            by: By::Master,
            op,
            step,
            ..
        } => end_by(op, step),
        Event::Act { .. } | Event::Arrive { .. } => None,
    }
}

fn end_by(op: OpId, step: Step) -> Option<Ended>
    ensures { result ≡ option_map ended_of (ending_of op (master_outcome step)) }
{
    match step {
        Step::Land | Step::Accept | Step::MasterAbort | Step::TargetAbort => {
            Some(Ended { op, value: None })
        }
        Step::Read(value) => Some(Ended {
            op,
            value: Some(value),
        }),
        Step::Take(outcome) => Some(Ended {
            op,
            value: value_in(outcome),
        }),
        Step::Part(_) | Step::Latch | Step::Stall => None,
    }
}

fn value_in(outcome: Outcome) -> Option<u32>
    ensures { result ≡ value_in outcome }
{
    match outcome {
        Outcome::Value(value) => Some(value),
        Outcome::Written | Outcome::Aborted | Outcome::Nobody => None,
    }
}

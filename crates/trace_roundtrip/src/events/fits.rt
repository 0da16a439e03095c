ghost use Rattle.std.specs.List.{AllByRecursion};
ghost use Rattle.trace_roundtrip.specs.events.Fits.{OutcomeFits, StepFits, PlaceFits, EventFits};

use board_model::Place;
use history_model::{Event, Step};
use pci_command::Outcome;

/// The numbers of the events of the program fit.
pub fn events_fit(events: &[Event])
    ensures { AllByRecursion EventFits events.now }
{
    for event in events {
        event_fits(event);
    }
}

/// The numbers of an event of the program fit.
pub fn event_fits(event: &Event)
    ensures { EventFits event.now }
{
    match event {
        Event::Act {
            op,
            step,
            place,
            ..
        } => {
            let _master = op.master;
            step_fits(step);
            place_fits(place);
        }
        Event::Arrive { .. } => {}
    }
}

fn step_fits(step: &Step)
    ensures { StepFits step.now }
{
    match step {
        Step::Read(value) => {
            let _value = *value;
        }
        Step::Take(outcome) => outcome_fits(outcome),
        _ => {}
    }
}

fn outcome_fits(outcome: &Outcome)
    ensures { OutcomeFits outcome.now }
{
    match outcome {
        Outcome::Value(value) => {
            let _value = *value;
        }
        _ => {}
    }
}

fn place_fits(place: &Place)
    ensures { PlaceFits place.now }
{
    match place {
        Place::Target(index) => {
            let _index = *index;
        }
        _ => {}
    }
}

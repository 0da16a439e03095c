ghost use Rattle.std.specs.Prelude.{◌≡◌, ◌&&◌};
ghost use Rattle.std.specs.List.{list_all, list_any};
ghost use Rattle.board_model.specs.Requests.{op_of};
ghost use Rattle.engine_runs.specs.threads.Tries.{outcome_by, is_latch, is_unmet, is_unmet_of};
ghost use Rattle.engine_runs.specs.threads.Tries.{is_unmet_try, is_act, are_unmet_tries};

use board_model::{Board, Op, Want, op_of};
use history_model::{By, Event, Stamped, Step};
use machine_steps::{lane_outcome, master_outcome};
use pci_command::{OpId, Outcome};

/// Whether the events are tries of polls that are not met, alone: some try, and what arrives beside
/// it.
pub(crate) fn are_unmet_tries(board: &Board, events: &[Stamped]) -> bool
    ensures { result ≡ are_unmet_tries board.now events.now }
{
    all_unmet(board, events) && has_act(events)
}

/// No event is an act of anything else.
fn all_unmet(board: &Board, events: &[Stamped]) -> bool
    ensures { result ≡ list_all (λ s. is_unmet_try board.now s.event) events.now }
{
    events
        .iter()
        .all(|stamped| is_unmet_try(board, stamped.event))
}

fn has_act(events: &[Stamped]) -> bool
    ensures { result ≡ list_any (λ s. is_act s.event) events.now }
{
    events.iter().any(|stamped| is_act(stamped.event))
}

/// Whether an initiator did something.
fn is_act(event: Event) -> bool
    ensures { result ≡ is_act event }
{
    matches!(event, Event::Act { .. })
}

/// Whether the event is part of a try of a poll that is not met, or an arrival.
fn is_unmet_try(board: &Board, event: Event) -> bool
    ensures { result ≡ is_unmet_try board.now event }
{
    match event {
        Event::Act { by, op, step, .. } => {
            is_unmet_of(board, op, step, outcome_by(board, by, op, step))
        }
        Event::Arrive { .. } => true,
    }
}

/// Whether the operation is a poll, which the step does not meet.
fn is_unmet_of(board: &Board, op: OpId, step: Step, outcome: Option<Outcome>) -> bool
    ensures { result ≡ is_unmet_of (op_of board.now op) step outcome }
{
    match op_of(board, op) {
        Some(Op::Poll { want, .. }) => is_unmet(*want, step, outcome),
        _ => false,
    }
}

/// How the step ends what its initiator presented, if it does.
fn outcome_by(board: &Board, by: By, op: OpId, step: Step) -> Option<Outcome>
    ensures { result ≡ outcome_by board.now by op step }
{
    match by {
        By::Master => master_outcome(step),
        By::Lane(lane) => lane_outcome(board, lane, op, step),
    }
}

/// Whether what ended so does not meet the poll, or is on its way.
fn is_unmet(want: Want, step: Step, outcome: Option<Outcome>) -> bool
    ensures { result ≡ is_unmet want step outcome }
{
    match outcome {
        Some(Outcome::Value(value)) => !want.is_met_by(value),
        Some(Outcome::Written | Outcome::Aborted | Outcome::Nobody) => true,
        None => is_latch(step),
    }
}

/// A step that ends nothing brings a try on its way where it is a latch.
fn is_latch(step: Step) -> bool
    ensures { result ≡ is_latch step }
{
    matches!(step, Step::Latch)
}

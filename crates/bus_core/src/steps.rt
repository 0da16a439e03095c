ghost use Rattle.std.specs.Prelude.{◌≡◌, ◌+◌, ◌<◌, drop, length, None};
ghost use Rattle.board_model.specs.declared.bridge.Place.TheVariants.{Nobody};
ghost use Rattle.history_model.specs.declared.event.Step.TheVariants.{MasterAbort};
ghost use Rattle.history_model.specs.declared.item.Answer.TheVariants.{Gives};
ghost use Rattle.bus_face.specs.Replies.{as_answer};
ghost use Rattle.bus_targets.specs.State.{step_of};
ghost use Rattle.bus_core.specs.Parts.{IsRest};
ghost use Rattle.bus_core.specs.Places.{sent_over};

use crate::{Given, Sent};
use board_model::{Lane, Place};
use bus_face::Reply;
use bus_targets::Access;
use history_model::{Answer, Step};
use lane_items::Item;
use pci_command::{OpId, Phases, Request};

/// Nobody claims it.
pub(crate) fn nobody() -> Given
    ensures { result ≡ record { answer = Gives MasterAbort Nobody; over = None } }
{
    Given {
        answer: machine_steps::nobody(),
        over: None,
    }
}

/// What is left of a request of which so many data phases went through.
pub(crate) fn rest_of(request: &Request, gone: u8) -> Request
    ensures rest { IsRest gone request.now result }
    ensures few { gone + length result.phases < 256 }
{
    let _few = request.phases.len();
    Request {
        command: request.command,
        address: request.address.saturating_add(4 * u64::from(gone)),
        phases: phases_from(&request.phases, gone as usize),
    }
}

/// The data phases from a place on.
fn phases_from(phases: &Phases, place: usize) -> Phases
    ensures { result ≡ drop place phases.now }
{
    if place == 0 {
        return phases.copy();
    }
    let mut left = Phases::new();
    if place < phases.len() {
        for phase in &phases.as_slice()[place..] {
            left.push(*phase);
        }
    }
    left
}

/// The reply of the half bridge where the lane begins is this answer.
pub(crate) fn as_answer(lane: Lane, reply: Reply) -> Answer
    ensures { result ≡ as_answer lane reply }
{
    let place = Place::Lane(lane);
    match reply {
        Reply::Accepted => Answer::Gives {
            step: Step::Accept,
            place,
        },
        Reply::Latched(_) => Answer::Gives {
            step: Step::Latch,
            place,
        },
        Reply::Taken(_, outcome) => Answer::Gives {
            step: Step::Take(outcome),
            place,
        },
        Reply::Retry(cause) => Answer::Retry { cause },
    }
}

/// What the reply of the port at the place sends over its bridge, with the stamp.
pub(crate) fn sent_over(place: usize, op: OpId, reply: Reply, stamp: u32) -> Option<Sent>
    ensures { result ≡ sent_over place op stamp reply }
{
    match reply {
        Reply::Accepted => Some(Sent {
            place,
            item: Item::Post { op, stamp },
        }),
        Reply::Latched(slot) => Some(Sent {
            place,
            item: Item::Ask { op, slot, stamp },
        }),
        Reply::Taken(..) | Reply::Retry(_) => None,
    }
}

/// The step that the answer of a target is.
pub(crate) fn step_of(access: Access) -> Step
    ensures { result ≡ step_of access }
{
    match access {
        Access::Stall => Step::Stall,
        Access::Abort => Step::TargetAbort,
        Access::Value(value) => Step::Read(value),
        Access::Part(phases) => Step::Part(phases),
        Access::Landed => Step::Land,
    }
}

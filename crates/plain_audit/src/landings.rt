ghost use Rattle.std.specs.Prelude.{◌≡◌, ◌≤◌, ◌<◌, ◌^◌, ◌||◌, ◌==◌, [], List, false, get_or};
ghost use Rattle.std.specs.Prelude.{length, take, Some};
ghost use Rattle.pci_command.specs.declared.phases.Phase.{Phase};
ghost use Rattle.pci_command.specs.declared.op_id.OpId.{OpId};
ghost use Rattle.board_model.specs.Requests.{request_of};
ghost use Rattle.history_model.specs.declared.event.Event.{Event};
ghost use Rattle.history_model.specs.Runs.{history_of};
ghost use Rattle.history_model.specs.Knowledge.{is_land_of, has_landed};
ghost use Rattle.history_model.specs.Words.{through, brought, brings, landings_of};
ghost use Rattle.plain_audit.specs.Places.{dword, has_some, reaches_dword, op_shows, first_shown};
ghost use Rattle.plain_audit.specs.Places.{or_op, event_shows};

use crate::places::Places;
use board_model::{Board, Place, Word, request_of};
use history_model::{Event, Step};
use machine_steps::{brought_by, dword_address, left_of};
use pci_command::{OpId, Phase, Request, same_op};
use plain_replay::through;

/// Whether all that was left of the write landed in one of these events, the first event first.
pub fn has_landed(before: &[Event], op: OpId) -> bool
    ensures { result ≡ has_landed (history_of before.now) op }
{
    let mut landed = false;
    for event in before {
        landed = is_land_of(event, op) || landed;
    }
    landed
}

fn is_land_of(event: &Event, of: OpId) -> bool
    ensures { result ≡ is_land_of of event.now }
{
    match *event {
        Event::Act {
            op,
            step: Step::Land,
            ..
        } => same_op(op, of),
        Event::Act { .. } | Event::Arrive { .. } => false,
    }
}

/// Whether one of the data phases from `at` on is for the dword at the address.
fn reaches(phases: &[Phase], address: u128, at: u128) -> bool
    requires { at ≤ 2 ^ 120 }
    ensures { result ≡ reaches_dword false address at phases.now }
{
    let mut reached = false;
    let mut next = at;
    for _ in phases {
        reached = is_reached(reached, next, address);
        next += 4;
    }
    reached
}

fn is_reached(reached: bool, at: u128, address: u128) -> bool
    ensures { result ≡ (reached || at == address) }
{
    reached || at == address
}

/// Whether the event brought a data phase to the dword, after those before it.
fn brings(board: &Board, done: &[Event], event: &Event, word: Word) -> bool
    ensures { result ≡ has_some (brought board.now (history_of done.now) (dword word) event.now) }
{
    match *event {
        Event::Act {
            bus,
            op,
            step,
            place: Place::Target(place),
            ..
        } if place == word.target => brings_at(board, done, bus, op, step, word),
        Event::Act { .. } | Event::Arrive { .. } => false,
    }
}

/// The same of a step at the target of the dword.
#[tactic(auto, using(crate::proofs::PlaceLemmas::none_brought))]
fn brings_at(board: &Board, done: &[Event], bus: u8, op: OpId, step: Step, word: Word) -> bool
    ensures { result ≡ has_some (landings_of op step (through (history_of done.now) op) (dword word)
        (request_of board.now op bus)) }
{
    if !brings_phases(step) {
        return false;
    }
    match request_of(board, op, bus) {
        None => false,
        Some(request) => brings_in(&request, through(done, op), step, word),
    }
}

/// Whether a step may bring data phases to its target; only of these is looked up what went before.
fn brings_phases(step: Step) -> bool
    ensures { (phases : List Phase) → result ≡ false → brings step phases ≡ [] }
{
    match step {
        Step::Land | Step::Part(_) => true,
        _ => false,
    }
}

/// The same of the request, of which so many data phases went through before.
#[tactic(auto, using(crate::proofs::PlaceLemmas::reached_landings))]
fn brings_in(request: &Request, gone: u128, step: Step, word: Word) -> bool
    requires { gone ≤ 2 ^ 100 }
    ensures { (o : OpId) →
        result ≡ has_some (landings_of o step gone (dword word) (Some request.now)) }
{
    let space = request.command.space();
    if space != word.space {
        return false;
    }
    let at = dword_address(word.space, u128::from(request.address) + 4 * gone);
    let phases = brought_by(step, left_of(request.phases.as_slice(), gone));
    reaches(phases, word.address, at)
}

/// Of the writes that landed in the dword, the first that landed whole and is the write, or was
/// told of it by these places.
pub fn first_shown(board: &Board, before: &[Event], word: Word, places: &Places) -> Option<OpId>
    ensures { result ≡ first_shown board.now places.now.write places.now.since
        (history_of before.now) (dword word) }
{
    let mut shown = None;
    for index in 0..before.len() {
        shown = or_shown(board, before, index, word, places, shown);
    }
    shown
}

/// What was shown so far, or else the operation of this event if it is such a write.
fn or_shown(
    board: &Board,
    before: &[Event],
    index: usize,
    word: Word,
    places: &Places,
    shown: Option<OpId>,
) -> Option<OpId>
    requires { index < length before.now }
    ensures { (d : Event) → result ≡ or_op shown (event_shows places.now.write places.now.since
        (history_of before.now) (has_some (brought board.now (history_of (take index before.now))
        (dword word) (get_or before.now index d))) (get_or before.now index d)) }
{
    match shown {
        Some(op) => Some(op),
        None => {
            let event = &before[index];
            let brings = brings(board, &before[..index], event, word);
            shown_by(before, event, brings, places)
        }
    }
}

/// The operation of the event, if it brought a data phase, landed whole and is the write, or was
/// told of it.
fn shown_by(before: &[Event], event: &Event, brings: bool, places: &Places) -> Option<OpId>
    ensures { result ≡
        event_shows places.now.write places.now.since (history_of before.now) brings event.now }
{
    match *event {
        Event::Act { op, .. } if brings && is_shown(before, op, places) => Some(op),
        Event::Act { .. } | Event::Arrive { .. } => None,
    }
}

fn is_shown(before: &[Event], op: OpId, places: &Places) -> bool
    ensures { result ≡ op_shows places.now.write places.now.since (history_of before.now) op }
{
    (same_op(op, places.write) || places.knows(op)) && has_landed(before, op)
}

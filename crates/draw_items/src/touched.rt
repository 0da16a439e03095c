ghost use Rattle.std.specs.Prelude.{◌≡◌, IfOk};
ghost use Rattle.std.specs.List.{filter, find};
ghost use Rattle.draw_items.specs.Journeys.{flies, is_there};
ghost use Rattle.history_model.specs.Lanes.{is_of};
ghost use Rattle.draw_items.specs.Touched.{is_done, is_done_of, comes_in, is_presented_in};
ghost use Rattle.draw_items.specs.Touched.{presented_in, item_of, is_taken_in, given_in};
ghost use Rattle.draw_items.specs.Touched.{taken_by, presented_of, named_by, completion_at};
ghost use Rattle.draw_items.specs.Touched.{is_among, is_near, TellsRows};

use crate::journey::{Journey, can_stand, is_of, lane_back};
use board_model::{Lane, Place};
use history_model::{By, Carried, Event, Step};
use pci_command::{OpId, same_op};
use std::alloc::{AllocError, Global};

/// What arrives by event number n, or what a lane presents in it.
pub fn item_of(journeys: &[Journey], n: u32, event: &Event) -> Option<Journey>
    ensures { result ≡ item_of n event.now journeys.now }
{
    match *event {
        Event::Act { by, op, .. } => presented_in(journeys, n, by, op),
        Event::Arrive { lane, .. } => coming_in(journeys, n, lane),
    }
}

fn coming_in(journeys: &[Journey], n: u32, lane: Lane) -> Option<Journey>
    ensures { result ≡ find (comes_in n lane) journeys.now }
{
    journeys
        .iter()
        .copied()
        .find(|journey| comes_in(*journey, n, lane))
}

fn comes_in(journey: Journey, n: u32, lane: Lane) -> bool
    ensures { result ≡ comes_in n lane journey }
{
    journey.lane == lane && journey.came == n
}

fn presented_in(journeys: &[Journey], n: u32, by: By, op: OpId) -> Option<Journey>
    ensures { result ≡ presented_in n by op journeys.now }
{
    match by {
        By::Master => None,
        By::Lane(lane) => standing_in(journeys, n, lane, op),
    }
}

fn standing_in(journeys: &[Journey], n: u32, lane: Lane, op: OpId) -> Option<Journey>
    ensures { result ≡ find (is_presented_in n lane op) journeys.now }
{
    journeys
        .iter()
        .copied()
        .find(|journey| is_presented_in(*journey, n, lane, op))
}

fn is_presented_in(journey: Journey, n: u32, lane: Lane, op: OpId) -> bool
    ensures { result ≡ is_presented_in n lane op journey }
{
    journey.stood(n.saturating_sub(1), lane) && is_of(journey.carried, op)
}

/// The completion that is taken in event number n.
pub fn taken_by(journeys: &[Journey], n: u32, event: &Event) -> Option<Journey>
    ensures { result ≡ taken_by n event.now journeys.now }
{
    match *event {
        Event::Act {
            step: Step::Take(_),
            place,
            ..
        } => given_in(journeys, n, place),
        Event::Act { .. } | Event::Arrive { .. } => None,
    }
}

fn given_in(journeys: &[Journey], n: u32, place: Place) -> Option<Journey>
    ensures { result ≡ given_in n place journeys.now }
{
    match place {
        Place::Lane(lane) => leaving_in(journeys, n, lane_back(lane)),
        Place::Target(_) | Place::Header(_) | Place::Nobody => None,
    }
}

fn leaving_in(journeys: &[Journey], n: u32, lane: Lane) -> Option<Journey>
    ensures { result ≡ find (is_taken_in n lane) journeys.now }
{
    journeys
        .iter()
        .copied()
        .find(|journey| is_taken_in(*journey, n, lane))
}

fn is_taken_in(journey: Journey, n: u32, lane: Lane) -> bool
    ensures { result ≡ is_taken_in n lane journey }
{
    journey.lane == lane && (journey.left == n && is_done(journey.carried))
}

fn is_done(item: Carried) -> bool
    ensures { result ≡ is_done item }
{
    match item {
        Carried::Done { .. } => true,
        Carried::Post { .. } | Carried::Ask { .. } | Carried::Room | Carried::Gone { .. } => false,
    }
}

/// What an event names that did not happen: what would arrive next, or what its lane presents.
pub fn named_by(journeys: &[Journey], event: &Event) -> Option<Journey>
    ensures { result ≡ named_by event.now journeys.now }
{
    match *event {
        Event::Act { by, op, .. } => presented_of(journeys, by, op),
        Event::Arrive { lane, .. } => flying_on(journeys, lane),
    }
}

fn flying_on(journeys: &[Journey], lane: Lane) -> Option<Journey>
    ensures { result ≡ find (flies lane) journeys.now }
{
    journeys.iter().copied().find(|journey| journey.flies(lane))
}

fn presented_of(journeys: &[Journey], by: By, op: OpId) -> Option<Journey>
    ensures { result ≡ presented_of by op journeys.now }
{
    match by {
        By::Master => None,
        By::Lane(lane) => standing_of(journeys, lane, op),
    }
}

fn standing_of(journeys: &[Journey], lane: Lane, op: OpId) -> Option<Journey>
    ensures { result ≡ find (is_there lane (is_of op)) journeys.now }
{
    journeys.iter().copied().find(|journey| journey.stands(lane) && is_of(journey.carried, op))
}

/// The completion of the operation that stands where it would be taken at this place.
pub fn completion_at(journeys: &[Journey], op: OpId, place: Place) -> Option<Journey>
    ensures { result ≡ completion_at op place journeys.now }
{
    match place {
        Place::Lane(lane) => done_of(journeys, lane_back(lane), op),
        Place::Target(_) | Place::Header(_) | Place::Nobody => None,
    }
}

fn done_of(journeys: &[Journey], lane: Lane, op: OpId) -> Option<Journey>
    ensures { result ≡ find (is_there lane (is_done_of op)) journeys.now }
{
    journeys.iter().copied().find(|journey| journey.stands(lane) && is_done_of(journey.carried, op))
}

fn is_done_of(item: Carried, of: OpId) -> bool
    ensures { result ≡ is_done_of of item }
{
    match item {
        Carried::Done { op, .. } => same_op(of, op),
        Carried::Post { .. } | Carried::Ask { .. } | Carried::Room | Carried::Gone { .. } => false,
    }
}

/// The journeys that the events behind number `before`, up to `last`, have to do with.
pub fn near_of(
    alloc: Global,
    journeys: &[Journey],
    before: u32,
    last: u32,
) -> Result<Vec<Journey>, AllocError>
    ensures { IfOk result (λ near. TellsRows before last journeys.now near.items) }
{
    kept_near(alloc, journeys, before, last)
}

fn kept_near(
    alloc: Global,
    journeys: &[Journey],
    before: u32,
    last: u32,
) -> Result<Vec<Journey>, AllocError>
    ensures { IfOk result (λ near. near.items ≡ filter (is_near before last) journeys.now) }
{
    journeys
        .iter()
        .copied()
        .filter(|journey| is_near(*journey, before, last))
        .collect(alloc)
}

fn is_near(journey: Journey, before: u32, last: u32) -> bool
    ensures { result ≡ is_near before last journey }
{
    is_among(before, last, journey.came)
        || (is_among(before, last, journey.left)
            || (journey.has_come(last)
                && (!journey.marked && (can_stand(journey.carried) && !journey.has_left(before)))))
}

fn is_among(before: u32, last: u32, n: u32) -> bool
    ensures { result ≡ is_among before last n }
{
    before < n && n <= last
}

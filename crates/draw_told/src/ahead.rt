ghost use Rattle.std.specs.Prelude.{◌≡◌};
ghost use Rattle.std.specs.List.{find};
ghost use Rattle.draw_told.specs.Ahead.{ends_on, unpresented, retried, waiting_in, waits_for};
ghost use Rattle.draw_told.specs.Ahead.{is_post, is_held, is_ahead, first_ahead, ahead_of_event};
ghost use Rattle.draw_told.specs.Ahead.{ahead_in};

use crate::close::Close;
use board_model::{Board, end_of};
use draw_items::{Journey, completion_at, named_by};
use history_model::{By, Carried, Event, Rule, Why};
use machine_steps::may_go;

/// What stands before the item of the last of these events, where that is why it is not allowed.
#[tactic(auto, unfolding(crate::specs::Ahead::ahead_in))]
pub fn ahead_in(
    board: &Board,
    journeys: &[Journey],
    close: Close,
    events: &[Event],
) -> Option<Journey>
    ensures { result ≡ ahead_in board.now journeys.now close events.now }
{
    match close {
        Close::Ended | Close::NotEnded => None,
        Close::Refused { why, .. } => {
            let last = events.get(events.len().saturating_sub(1)).copied();
            ahead_of_event(board, journeys, why, last)
        }
    }
}

fn ahead_of_event(
    board: &Board,
    journeys: &[Journey],
    why: Why,
    event: Option<Event>,
) -> Option<Journey>
    ensures { result ≡ ahead_of_event board.now journeys.now why event }
{
    match event {
        Some(event) => {
            let item = waiting_in(board, journeys, why, event);
            first_ahead(board, journeys, item)
        }
        None => None,
    }
}

/// The item that the event would have to do with.
fn waiting_in(board: &Board, journeys: &[Journey], why: Why, event: Event) -> Option<Journey>
    ensures { result ≡ waiting_in board.now why event journeys.now }
{
    match why {
        Why::NotPresented => unpresented(board, journeys, event),
        Why::GetsRetry => retried(journeys, event),
        Why::AnsweredOtherwise | Why::NothingInFlight | Why::MarkedOtherwise => None,
    }
}

fn unpresented(board: &Board, journeys: &[Journey], event: Event) -> Option<Journey>
    ensures { result ≡ unpresented board.now event journeys.now }
{
    match event {
        Event::Act { bus, by, .. } if ends_on(board, bus, by) => named_by(journeys, &event),
        Event::Act { .. } | Event::Arrive { .. } => None,
    }
}

fn ends_on(board: &Board, bus: u8, by: By) -> bool
    ensures { result ≡ ends_on board.now bus by }
{
    match by {
        By::Master => false,
        By::Lane(lane) => end_of(board, lane) == bus,
    }
}

fn retried(journeys: &[Journey], event: Event) -> Option<Journey>
    ensures { result ≡ retried event journeys.now }
{
    match event {
        Event::Act { op, place, .. } => completion_at(journeys, op, place),
        Event::Arrive { .. } => None,
    }
}

fn first_ahead(board: &Board, journeys: &[Journey], item: Option<Journey>) -> Option<Journey>
    ensures { result ≡ first_ahead board.now journeys.now item }
{
    match item {
        Some(item) => first_before(board, journeys, item),
        None => None,
    }
}

fn first_before(board: &Board, journeys: &[Journey], item: Journey) -> Option<Journey>
    ensures { result ≡ find (is_ahead board.now item) journeys.now }
{
    journeys
        .iter()
        .copied()
        .find(|older| is_ahead(board, item, *older))
}

/// Whether it stands where the item does, came before it, and holds it up.
fn is_ahead(board: &Board, item: Journey, older: Journey) -> bool
    ensures { result ≡ is_ahead board.now item older }
{
    older.stands(item.lane) && older.came < item.came && is_held(board, item, older)
}

/// What a completion that is not given waits for is a posted write.
fn is_held(board: &Board, item: Journey, older: Journey) -> bool
    ensures { result ≡ is_held board.now item older }
{
    match item.carried {
        Carried::Done { .. } => is_post(older.carried),
        Carried::Post { .. } | Carried::Ask { .. } | Carried::Room | Carried::Gone { .. } => {
            waits_for(board, item, older)
        }
    }
}

fn is_post(item: Carried) -> bool
    ensures { result ≡ is_post item }
{
    matches!(item, Carried::Post { .. })
}

/// Whether the lane does not present the item with this older one alone before it.
fn waits_for(board: &Board, item: Journey, older: Journey) -> bool
    ensures { result ≡ waits_for board.now item older }
{
    let bus = end_of(board, item.lane);
    let standing = [older.carried, item.carried];
    !may_go(board, Rule::Tagged, bus, item.op, &standing)
}

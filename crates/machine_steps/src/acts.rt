ghost use Rattle.std.specs.Prelude.{◌≡◌};
ghost use Rattle.history_model.specs.Local.{bus_of};
ghost use Rattle.history_model.specs.Next.{act_given, arrival_of, ends_on};

use crate::presented::Presented;
use board_model::{Board, Lane, end_of, has_bridge_to};
use history_model::{Answer, Event, Mark};

/// The act of what an initiator presents with this answer: none where that is a Retry.
pub fn act_given(presented: Presented, answer: Answer) -> Option<Event>
    ensures { result ≡ act_given presented.bus presented.by presented.op answer }
{
    let Presented { bus, by, op } = presented;
    match answer {
        Answer::Gives { step, place } => Some(Event::Act {
            bus,
            by,
            op,
            step,
            place,
        }),
        Answer::Retry { .. } => None,
    }
}

/// The arrival on the lane with the mark of the next one: none where there is no next one.
pub fn arrival_of(lane: Lane, next: Option<Mark>) -> Option<Event>
    ensures { result ≡ arrival_of lane next }
{
    match next {
        Some(mark) => Some(Event::Arrive { lane, mark }),
        None => None,
    }
}

/// Whether it is a lane of a bridge of the board that ends on the bus.
pub fn ends_on(board: &Board, bus: u8, lane: Lane) -> bool
    ensures { result ≡ ends_on board.now bus lane }
{
    has_bridge_to(board, lane.bus) && end_of(board, lane) == bus
}

/// The bus on which an event happens: an arrival happens where its lane ends.
pub fn bus_of(board: &Board, event: &Event) -> u8
    ensures { result ≡ bus_of board.now event.now }
{
    match *event {
        Event::Act { bus, .. } => bus,
        Event::Arrive { lane, .. } => end_of(board, lane),
    }
}

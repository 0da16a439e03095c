//! The acts of a trace, behind each of which all that is in flight arrives.
ghost use Rattle.judge_state.specs.Stands.{Stands};

use crate::past::Past;
use board_model::{Lane, MOST_IN_FLIGHT, Place};
use board_tree::Tree;
use history_model::{By, Event, Rule, Why};
use judge_state::Kept;
use machine_moves::moves_in;
use pci_command::NoMemory;

/// More than the items that are in flight on a lane at once.
const ROUNDS: u32 = MOST_IN_FLIGHT as u32 + 1;

/// The acts happen one after another to what is kept, and behind each all that it puts in flight
/// arrives, up to the first that is not allowed: its place among the events, from 0, and why. Their
/// moves are noted down, those of an arrival with the number of its act.
pub(crate) fn fill_all(
    kept: &mut Kept,
    past: &mut Past,
    tree: &Tree,
    events: &[Event],
) -> Result<Option<(usize, Why)>, NoMemory>
    requires { Stands tree.now kept.old }
{
    for (place, event) in events.iter().enumerate() {
        if let Event::Act { by, place: at, .. } = *event {
            let n = place.saturating_add(1);
            if let Some(why) = go_on(kept, past, tree, n, event)? {
                return Ok(Some((place, why)));
            }
            if let Place::Lane(lane) = at {
                arrive_at(kept, past, tree, n, lane.bus)?;
            }
            if let By::Lane(lane) = by {
                arrive_at(kept, past, tree, n, lane.bus)?;
            }
        }
    }
    Ok(None)
}

/// One more event, where it is allowed; if it is not, the cause.
fn go_on(
    kept: &mut Kept,
    past: &mut Past,
    tree: &Tree,
    n: usize,
    event: &Event,
) -> Result<Option<Why>, NoMemory>
    requires { Stands tree.now kept.old }
    ensures { Stands tree.now kept.new }
{
    match kept.step(tree, event) {
        Ok(found) => {
            let moves = moves_in(tree.board(), Rule::Tagged, event, found);
            past.note(n, moves.as_slice())?;
            Ok(None)
        }
        Err(why) => Ok(Some(why)),
    }
}

/// On the lanes of one bridge, all that an act put in flight: a request that is dropped on its
/// arrival sends word on the other lane.
fn arrive_at(
    kept: &mut Kept,
    past: &mut Past,
    tree: &Tree,
    n: usize,
    bus: u8,
) -> Result<(), NoMemory>
    requires { Stands tree.now kept.old }
    ensures { Stands tree.now kept.new }
{
    arrive_on(kept, past, tree, n, Lane { bus, up: false })?;
    arrive_on(kept, past, tree, n, Lane { bus, up: true })?;
    arrive_on(kept, past, tree, n, Lane { bus, up: false })
}

fn arrive_on(
    kept: &mut Kept,
    past: &mut Past,
    tree: &Tree,
    n: usize,
    lane: Lane,
) -> Result<(), NoMemory>
    requires { Stands tree.now kept.old }
    ensures { Stands tree.now kept.new }
{
    for _ in 0..ROUNDS {
        match kept.next_mark(tree.board(), lane) {
            Some(mark) => {
                let _ok = go_on(kept, past, tree, n, &Event::Arrive { lane, mark })?;
            }
            None => return Ok(()),
        }
    }
    Ok(())
}

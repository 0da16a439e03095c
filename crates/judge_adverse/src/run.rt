ghost use Rattle.std.specs.Prelude.{◌≡◌, [], IfOk, MatchOption, is_some, ◌||◌};
ghost use Rattle.history_model.specs.Knowledge.{ends_as};
ghost use Rattle.judge_next.specs.Course.{IsCourse};
ghost use Rattle.judge_adverse.specs.Turns.{IsRing, KnowsIdle};
ghost use Rattle.judge_adverse.specs.Runs.{IsAdverse, MayWait, IsPair, held_back};

use crate::ring::Ring;
use crate::turns::go_on;
use board_tree::Tree;
use history_model::Event;
use judge_next::Course;
use judge_state::Kept;
use machine_steps::ended_op;
use pci_command::{List, NoMemory, OpId, same_op};
use std::alloc::Global;

/// A read that is to read before a write has begun.
#[derive(Clone, Copy, Debug)]
pub struct Pair {
    pub read: OpId,
    pub write: OpId,
}

/// The events of a complete run in which the read reads before the write has begun. There is none
/// where a run comes to wait for the write. The time grows with the number of events, and that of
/// the initiators, of which each is asked again only where something was done on its bus.
pub fn adverse_run(alloc: Global, tree: &Tree, pair: Pair) -> Result<Option<List<Event>>, NoMemory>
    requires { IsPair tree.now pair }
    ensures { IfOk result (λ found. MatchOption found (MayWait tree.now pair.read pair.write)
        (IsAdverse tree.now pair.read pair.write)) }
{
    let kept = Kept::new(alloc, tree)?;
    let mut course = Course::new(alloc, tree, kept)?;
    let mut ring = Ring::new(alloc, tree)?;
    to_the_end(alloc, &mut course, tree, &mut ring, pair)
}

/// The run goes on to its end. Each event lowers what is left, so that this ends.
fn to_the_end(
    alloc: Global,
    course: &mut Course,
    tree: &Tree,
    ring: &mut Ring,
    pair: Pair,
) -> Result<Option<List<Event>>, NoMemory>
    requires pair { IsPair tree.now pair }
    requires course { IsCourse tree.now [] course.old }
    requires ring { IsRing tree.now ring.old }
    requires idle { KnowsIdle tree.now [] ring.old }
    ensures { IfOk result (λ found. MatchOption found (MayWait tree.now pair.read pair.write)
        (IsAdverse tree.now pair.read pair.write)) }
{
    // The board of a tree is valid, so that the laws speak of it.
    let _valid = tree.board();
    let mut events = Vec::new(alloc);
    let mut ended = false;
    while let Some(event) = go_on(course, tree, ring, held_back(pair, ended)) {
        ended = ends(pair.read, &event, ended);
        events.push(event)?;
    }
    if ended {
        Ok(Some(List::from_vec(events)))
    } else {
        Ok(None)
    }
}

/// Until the read has ended the write is held back.
fn held_back(pair: Pair, ended: bool) -> Option<OpId>
    ensures { result ≡ held_back pair ended }
{
    if ended { None } else { Some(pair.write) }
}

/// Whether the operation has ended at its master: with this event, or before it.
fn ends(op: OpId, event: &Event, before: bool) -> bool
    ensures { result ≡ (is_some (ends_as op event.now) || before) }
{
    match ended_op(event) {
        Some(ended) if same_op(ended, op) => true,
        _ => before,
    }
}

ghost use Rattle.std.specs.Prelude.{◌≡◌, ◌<◌, ◌≤◌, ℕ, List, ◌∷◌, length, slice_get};
ghost use Rattle.std.specs.Prelude.{Some, true, false};
ghost use Rattle.std.specs.Prelude.{IfSome, IfNone};
ghost use Rattle.board_model.specs.declared.board.Board.{Board};
ghost use Rattle.history_model.specs.declared.event.Event.{Event};
ghost use Rattle.history_model.specs.Runs.{Allowed};
ghost use Rattle.judge_next.specs.Course.{IsCourse, HasCourse};
ghost use Rattle.judge_adverse.specs.declared.ring.Initiator.{Initiator};
ghost use Rattle.judge_adverse.specs.Turns.{is_from_on, is_passed_over, IsRing, IsSameRing};
ghost use Rattle.judge_adverse.specs.Turns.{act_of_initiator, Idles, KnowsIdle};
ghost use Rattle.judge_adverse.specs.Turns.{MayCome, NothingMayCome, Rests, AllRest, GoesOnBy};

use crate::ring::{Initiator, Ring, hush, is_idle};
use board_tree::Tree;
use history_model::{By, Event};
use judge_next::Course;
use law_delivered::laws_of_runs;
use law_local::other_buses_stay;
use machine_steps::{bus_of, stands_after};
use pci_command::{OpId, same_op};

/// The run goes on by what comes next: the first arrival, and where nothing is in flight the act of
/// whose turn it is. Where a write is held back its master is passed over, while its turn is the
/// write or stands behind it. There is none where nothing else may be done. Initiators that are
/// known to idle are not asked again until something is done on their bus.
pub(crate) fn go_on(
    course: &mut Course,
    tree: &Tree,
    ring: &mut Ring,
    held: Option<OpId>,
) -> Option<Event>
    requires course { HasCourse tree.now course.old }
    requires ring { IsRing tree.now ring.old }
    ensures ring { IsRing tree.now ring.new }
    ensures goes { (h : List Event) → IsCourse tree.now h course.old →
        KnowsIdle tree.now h ring.old → GoesOnBy tree.now h held course.new result }
    ensures knows { (h : List Event) → IsCourse tree.now h course.old →
        KnowsIdle tree.now h ring.old →
        IfSome result (λ event. KnowsIdle tree.now (event ∷ h) ring.new) }
{
    laws_of_runs();
    other_buses_stay();
    // The board of a tree is valid, so that the laws speak of it.
    let board = tree.board();
    let event = next_event(course, tree, ring, held)?;
    // it is allowed, so that the run goes on by it
    let _ok = course.step(tree, &event);
    ring.wake(bus_of(board, &event));
    Some(event)
}

/// What comes next.
fn next_event(course: &Course, tree: &Tree, ring: &mut Ring, held: Option<OpId>) -> Option<Event>
    requires course { HasCourse tree.now course.now }
    requires ring { IsRing tree.now ring.old }
    ensures ring { IsRing tree.now ring.new }
    ensures found { (h : List Event) → IsCourse tree.now h course.now →
        IfSome result (MayCome tree.now h held) }
    ensures none { (h : List Event) → IsCourse tree.now h course.now →
        KnowsIdle tree.now h ring.old → IfNone result (NothingMayCome tree.now h held) }
    ensures knows { (h : List Event) → IsCourse tree.now h course.now →
        KnowsIdle tree.now h ring.old → KnowsIdle tree.now h ring.new }
{
    match course.next_arrival(tree) {
        Some(event) => Some(event),
        None => next_act(course, tree, ring, held),
    }
}

/// The next act: of the first initiator behind the one that acted last that may do something.
fn next_act(course: &Course, tree: &Tree, ring: &mut Ring, held: Option<OpId>) -> Option<Event>
    requires { IsRing tree.now ring.old }
    ensures ring { IsRing tree.now ring.new }
    ensures found { (h : List Event) → IsCourse tree.now h course.now →
        IfSome result (MayCome tree.now h held) }
    ensures none { (h : List Event) → IsCourse tree.now h course.now →
        KnowsIdle tree.now h ring.old →
        IfNone result (AllRest tree.now h held ring.old.initiators.items) }
    ensures knows { (h : List Event) → IsCourse tree.now h course.now →
        KnowsIdle tree.now h ring.old → KnowsIdle tree.now h ring.new }
{
    let (place, event) = act_around(course, tree, ring, held)?;
    ring.place = place + 1;
    Some(event)
}

fn act_around(
    course: &Course,
    tree: &Tree,
    ring: &mut Ring,
    held: Option<OpId>,
) -> Option<(usize, Event)>
    requires { IsRing tree.now ring.old }
    ensures ring { IsSameRing ring.old ring.new }
    ensures found { (h : List Event) → IsCourse tree.now h course.now →
        IfSome result (λ found. MayCome tree.now h held found.1) }
    ensures within { IfSome result (λ found. found.0 < length ring.old.initiators.items) }
    ensures none { (h : List Event) → IsCourse tree.now h course.now →
        KnowsIdle tree.now h ring.old →
        IfNone result (AllRest tree.now h held ring.old.initiators.items) }
    ensures knows { (h : List Event) → IsCourse tree.now h course.now →
        KnowsIdle tree.now h ring.old → KnowsIdle tree.now h ring.new }
{
    let all = ring.initiators.len();
    let place = ring.place;
    match act_between(course, tree, ring, held, place, all) {
        Some(found) => Some(found),
        None => act_between(course, tree, ring, held, 0, place),
    }
}

/// The first act of the initiators from one place up to another, with the place of who does it.
fn act_between(
    course: &Course,
    tree: &Tree,
    ring: &mut Ring,
    held: Option<OpId>,
    from: usize,
    to: usize,
) -> Option<(usize, Event)>
    requires within { to ≤ length ring.old.initiators.items }
    requires flags { length ring.old.idle.items ≡ length ring.old.initiators.items }
    ensures ring { IsSameRing ring.old ring.new }
    ensures found { (h : List Event) → IsCourse tree.now h course.now →
        IfSome result (λ found. MayCome tree.now h held found.1) }
    ensures within { IfSome result (λ found. found.0 < length ring.old.initiators.items) }
    ensures none { (h : List Event) → IsCourse tree.now h course.now →
        KnowsIdle tree.now h ring.old →
        IfNone result ((k : ℕ) (initiator : Initiator) → from ≤ k → k < to →
        slice_get ring.old.initiators.items k ≡ Some initiator → Rests tree.now h held initiator) }
    ensures knows { (h : List Event) → IsCourse tree.now h course.now →
        KnowsIdle tree.now h ring.old → KnowsIdle tree.now h ring.new }
{
    for place in from..to {
        if let Some(event) = act_at(course, tree, ring, held, place) {
            return Some((place, event));
        }
    }
    None
}

/// The act of the initiator at the place, where it may come next. One that has no act is known to
/// idle from then on.
fn act_at(
    course: &Course,
    tree: &Tree,
    ring: &mut Ring,
    held: Option<OpId>,
    place: usize,
) -> Option<Event>
    requires place { place < length ring.old.initiators.items }
    requires flags { length ring.old.idle.items ≡ length ring.old.initiators.items }
    ensures ring { IsSameRing ring.old ring.new }
    ensures found { (h : List Event) → IsCourse tree.now h course.now →
        IfSome result (MayCome tree.now h held) }
    ensures none { (h : List Event) → IsCourse tree.now h course.now →
        KnowsIdle tree.now h ring.old → IfNone result ((initiator : Initiator) →
        slice_get ring.old.initiators.items place ≡ Some initiator →
        Rests tree.now h held initiator) }
    ensures knows { (h : List Event) → IsCourse tree.now h course.now →
        KnowsIdle tree.now h ring.old → KnowsIdle tree.now h ring.new }
{
    if is_idle(&ring.idle, place) {
        return None;
    }
    match act_of(course, tree, ring.initiators[place]) {
        Some(event) => unless_passed_over(held, event),
        None => {
            hush(&mut ring.idle, place);
            None
        }
    }
}

/// The act of the initiator: what it presents and is not answered with Retry.
fn act_of(course: &Course, tree: &Tree, initiator: Initiator) -> Option<Event>
    ensures act { (h : List Event) → IsCourse tree.now h course.now →
        result ≡ act_of_initiator tree.now h initiator }
    ensures allowed { (h : List Event) → IsCourse tree.now h course.now →
        IfSome result (Allowed tree.now h) }
    ensures none { (h : List Event) → IsCourse tree.now h course.now →
        IfNone result (Idles tree.now h initiator) }
{
    match initiator {
        Initiator::Lane { bus, lane } => course.act_of_lane(tree, bus, lane),
        Initiator::Master { bus, master } => course.act_of_master(tree, bus, master),
    }
}

/// The event, where it is not passed over.
fn unless_passed_over(held: Option<OpId>, event: Event) -> Option<Event>
    ensures passed { IfNone result (is_passed_over held event ≡ true) }
    ensures comes { IfSome result (λ it. (it ≡ event) × (is_passed_over held event ≡ false)) }
{
    if is_passed_over(held, &event) {
        None
    } else {
        Some(event)
    }
}

/// Whether the event is passed over, where a write is held back.
fn is_passed_over(held: Option<OpId>, event: &Event) -> bool
    ensures { result ≡ is_passed_over held event.now }
{
    match held {
        Some(write) => is_from_on(write, event),
        None => false,
    }
}

/// Whether it is a master's act of the write, or of what stands behind it in its program.
fn is_from_on(write: OpId, event: &Event) -> bool
    ensures { result ≡ is_from_on write event.now }
{
    match *event {
        Event::Act {
            by: By::Master,
            op,
            ..
        } => op.master == write.master && (same_op(op, write) || stands_after(write, op)),
        Event::Act { .. } | Event::Arrive { .. } => false,
    }
}

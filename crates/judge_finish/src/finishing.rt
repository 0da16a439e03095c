ghost use Rattle.std.specs.Prelude.{◌<◌, ◌^◌, List as Items, [], length, IfOk, IfErr, OnOk};
ghost use Rattle.history_model.specs.declared.event.Event.{Event};
ghost use Rattle.history_model.specs.Runs.{history_of};
ghost use Rattle.judge_state.specs.Stands.{StandsFor};
ghost use Rattle.judge_next.specs.Course.{IsCourse, HasCourse};
ghost use Rattle.judge_finish.specs.Finishing.{GoesOnBy, Finishes, IsUnfinished};

use crate::Unfinished;
use board_tree::Tree;
use history_model::Event;
use judge_next::Course;
use judge_state::{Kept, take_all};
use law_delivered::laws_of_runs;
use pci_command::{List, NoMemory};
use std::alloc::Global;

/// The events of a run, and behind them those with which it goes on to the end of all programs,
/// each the next event of those before it. There are fewer than 2^32 events, and the time grows
/// with their number.
pub fn finish(alloc: Global, tree: &Tree, events: List<Event>) -> Result<List<Event>, Unfinished>
    requires { length events < 2 ^ 32 }
    ensures ok { IfOk result (Finishes tree.now events) }
    ensures err { IfErr result (IsUnfinished tree.now events) }
{
    let mut course = course_of(alloc, tree, events.as_slice())?;
    Ok(to_the_end(&mut course, tree, events)?)
}

/// The course of the run of these events, if they are one.
fn course_of(alloc: Global, tree: &Tree, events: &[Event]) -> Result<Course, Unfinished>
    requires { length events.now < 2 ^ 32 }
    ensures ok { IfOk result (IsCourse tree.now (history_of events.now)) }
    ensures err { IfErr result (IsUnfinished tree.now events.now) }
{
    let mut kept = Kept::new(alloc, tree)?;
    take_run(&mut kept, tree, events)?;
    Ok(Course::new(alloc, tree, kept)?)
}

/// The events happen to what is kept of a run without events, if they are a run.
fn take_run(kept: &mut Kept, tree: &Tree, events: &[Event]) -> Result<(), Unfinished>
    requires few { length events.now < 2 ^ 32 }
    requires start { StandsFor tree.now [] kept.old }
    ensures ok { OnOk result (StandsFor tree.now (history_of events.now) kept.new) }
    ensures err { IfErr result (IsUnfinished tree.now events.now) }
{
    match take_all(kept, tree, events) {
        Some((event, why)) => Err(Unfinished::NotRun { event, why }),
        None => Ok(()),
    }
}

/// A run goes on to its end. Each event lowers what is left, so that this ends.
fn to_the_end(
    course: &mut Course,
    tree: &Tree,
    events: List<Event>,
) -> Result<List<Event>, NoMemory>
    requires { IsCourse tree.now (history_of events) course.old }
    ensures { IfOk result (Finishes tree.now events) }
{
    let mut whole = events.into_vec();
    while let Some(event) = go_on(course, tree) {
        whole.push(event)?;
    }
    Ok(List::from_vec(whole))
}

/// A run goes on by its next event, which lowers what is left. There is none where it is complete,
/// and then all laws hold of it.
fn go_on(course: &mut Course, tree: &Tree) -> Option<Event>
    requires { HasCourse tree.now course.old }
    ensures { (h : Items Event) → IsCourse tree.now h course.old →
        GoesOnBy tree.now h course.new result }
{
    laws_of_runs();
    // The board of a tree is valid, so that the laws speak of it.
    let _valid = tree.board();
    course.go_on(tree)
}

ghost use Rattle.std.specs.Prelude.{◌∷◌, List, OnOk};
ghost use Rattle.history_model.specs.declared.event.Event.{Event};
ghost use Rattle.history_model.specs.Runs.{history_of};
ghost use Rattle.judge_next.specs.Course.{IsCourse, HasCourse};
ghost use Rattle.judge_fill.specs.Arriving.{Arrived, ArrivesBy};

use board_tree::Tree;
use history_model::Event;
use judge_next::Course;
use law_bound::runs_end;
use pci_command::NoMemory;

/// The event by which the course went on last behind these events, and behind it all arrivals: all
/// that is in flight arrives, and what that puts in flight, one by one in the fixed order.
pub(crate) fn put(
    course: &mut Course,
    tree: &Tree,
    event: Event,
    whole: &mut Vec<Event>,
) -> Result<(), NoMemory>
    requires { IsCourse tree.now (event ∷ history_of whole.old.items) course.old }
    ensures { OnOk result
        (Arrived tree.now (event ∷ history_of whole.old.items) whole.new.items course.new) }
{
    whole.push(event)?;
    all_arrive(course, tree, whole)
}

/// All that is in flight arrives, and what that puts in flight, one by one in the fixed order.
fn all_arrive(course: &mut Course, tree: &Tree, whole: &mut Vec<Event>) -> Result<(), NoMemory>
    requires { IsCourse tree.now (history_of whole.old.items) course.old }
    ensures { OnOk result
        (Arrived tree.now (history_of whole.old.items) whole.new.items course.new) }
{
    while let Some(arrival) = arrive(course, tree) {
        whole.push(arrival)?;
    }
    Ok(())
}

/// The first arrival in the fixed order happens, which lowers what is left, or nothing is in
/// flight.
pub fn arrive(course: &mut Course, tree: &Tree) -> Option<Event>
    requires { HasCourse tree.now course.old }
    ensures { (h : List Event) → IsCourse tree.now h course.old →
        ArrivesBy tree.now h course.new result }
{
    runs_end();
    // The board of a tree is valid, so that each event lowers what is left.
    let _valid = tree.board();
    match course.next_arrival(tree) {
        Some(arrival) => {
            // it is allowed, so that the run goes on by it
            let _ok = course.step(tree, &arrival);
            Some(arrival)
        }
        None => None,
    }
}

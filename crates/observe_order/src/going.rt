//! A run that goes on by acts, with all arrivals behind each.
ghost use Rattle.std.specs.Prelude.{[], IfOk, OnOk};
ghost use Rattle.judge_next.specs.Course.{IsCourse};
ghost use Rattle.observe_order.specs.Going.{IsGoing, HasLanded};

use board_tree::Tree;
use history_model::Event;
use judge_fill::arrive;
use judge_next::Course;
use judge_state::Kept;
use machine_steps::bus_of;
use observe_told::{Heads, Woven};
use pci_command::NoMemory;
use std::alloc::Global;

/// The course before the first act.
pub(crate) fn begun(alloc: Global, tree: &Tree) -> Result<Course, NoMemory>
    ensures { IfOk result (IsCourse tree.now []) }
{
    let kept = Kept::new(alloc, tree)?;
    Course::new(alloc, tree, kept)
}

/// Whether the act is allowed: then it happens, and all arrivals behind it. What was refused on the
/// buses of these events may be allowed now.
pub(crate) fn try_act(
    course: &mut Course,
    run: &mut Woven,
    tree: &Tree,
    heads: &mut Heads,
    act: &Event,
) -> Result<bool, NoMemory>
    requires { HasLanded tree.now run.old course.old }
    ensures { OnOk result (HasLanded tree.now run.new course.new) }
{
    match course.step(tree, act) {
        Ok(()) => {
            run.push(*act)?;
            heads.stir(bus_of(tree.board(), act));
            all_arrive(course, run, tree, heads)?;
            Ok(true)
        }
        Err(_why) => Ok(false),
    }
}

/// All that is in flight arrives, and what that puts in flight, one by one in the fixed order.
fn all_arrive(
    course: &mut Course,
    run: &mut Woven,
    tree: &Tree,
    heads: &mut Heads,
) -> Result<(), NoMemory>
    requires { IsGoing tree.now run.old course.old }
    ensures { OnOk result (HasLanded tree.now run.new course.new) }
{
    while let Some(arrival) = arrive(course, tree) {
        run.push(arrival)?;
        heads.stir(bus_of(tree.board(), &arrival));
    }
    Ok(())
}

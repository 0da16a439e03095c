ghost use Rattle.std.specs.Prelude.{◌≡◌, ◌<◌, ◌^◌, [], length, IfOk, IfErr, OnOk};
ghost use Rattle.board_model.specs.Valid.{IsValid};
ghost use Rattle.judge_next.specs.Course.{IsCourse};
ghost use Rattle.judge_fill.specs.Filling.{PlacedEarly, Fills, IsUnfilled};

use crate::Unfilled;
use crate::arriving::put;
use board_tree::Tree;
use history_model::Event;
use judge_next::Course;
use judge_state::Kept;
use law_bound::runs_end;
use pci_command::{List, NoMemory};
use std::alloc::Global;

/// The acts of these events, and behind each all that it puts in flight arriving, the first arrival
/// in the fixed order each time. The arrivals that are among the events are left away. There are
/// fewer than 2^32 events, and the time grows with the number of those that come of them.
pub fn fill(alloc: Global, tree: &Tree, events: &[Event]) -> Result<List<Event>, Unfilled>
    requires { length events.now < 2 ^ 32 }
    ensures ok { IfOk result (Fills tree.now events.now) }
    ensures err { IfErr result (IsUnfilled tree.now events.now) }
{
    let mut whole = room_for(alloc, tree)?;
    fill_into(alloc, tree, events, &mut whole)?;
    Ok(List::from_vec(whole))
}

/// No event, and room for as many as a run of the board can have.
fn room_for(alloc: Global, tree: &Tree) -> Result<Vec<Event>, NoMemory>
    ensures { IfOk result (λ whole. whole.items ≡ []) }
{
    Ok(Vec::with_capacity(alloc, tree.bound() as usize)?)
}

fn fill_into(
    alloc: Global,
    tree: &Tree,
    events: &[Event],
    whole: &mut Vec<Event>,
) -> Result<(), Unfilled>
    requires few { length events.now < 2 ^ 32 }
    requires none { whole.old.items ≡ [] }
    ensures ok { OnOk result (Fills tree.now events.now whole.new.items) }
    ensures err { IfErr result (IsUnfilled tree.now events.now) }
{
    runs_end();
    // The board of a tree is valid, so that the laws speak of it.
    let _valid = tree.board();
    let kept = Kept::new(alloc, tree)?;
    let mut course = Course::new(alloc, tree, kept)?;
    take_acts(&mut course, tree, events, whole)
}

/// The acts happen one after another, with all arrivals behind each, up to the first that is not
/// allowed.
fn take_acts(
    course: &mut Course,
    tree: &Tree,
    events: &[Event],
    whole: &mut Vec<Event>,
) -> Result<(), Unfilled>
    requires few { length events.now < 2 ^ 32 }
    requires valid { IsValid tree.now }
    requires start { IsCourse tree.now [] course.old }
    requires none { whole.old.items ≡ [] }
    ensures ok { OnOk result (PlacedEarly tree.now events.now whole.new.items) }
    ensures err { IfErr result (IsUnfilled tree.now events.now) }
{
    for (index, event) in events.iter().enumerate() {
        match event {
            Event::Act { .. } => match course.step(tree, event) {
                Ok(()) => put(course, tree, *event, whole)?,
                Err(why) => {
                    let event = index as u32 + 1;
                    return Err(Unfilled::NotRun { event, why });
                }
            },
            Event::Arrive { .. } => {}
        }
    }
    Ok(())
}

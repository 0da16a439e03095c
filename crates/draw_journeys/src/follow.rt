ghost use Rattle.std.specs.Prelude.{◌≡◌, ◌<◌, ◌^◌, [], ◌∷◌, List, length, IfOk, OnOk};
ghost use Rattle.history_model.specs.declared.event.Event.{Event};
ghost use Rattle.history_model.specs.Runs.{Run, Allowed, history_of};
ghost use Rattle.history_model.specs.World.{world_of};
ghost use Rattle.history_model.specs.Moves.{moved_by};
ghost use Rattle.history_model.specs.declared.rule.Rule.TheVariants.{Tagged};
ghost use Rattle.judge_state.specs.Stands.{StandsFor, Stands};
ghost use Rattle.draw_journeys.specs.Journeys.{ShowsRun};
ghost use Rattle.draw_journeys.specs.Steps.{next, journeys_in};
ghost use Rattle.draw_journeys.specs.Kept.{IsListed};

use crate::travel::Travel;
use board_tree::Tree;
use draw_items::Journey;
use history_model::{Event, Moved, Rule};
use judge_state::Kept;
use law_bound::runs_end;
use machine_moves::moves_in;
use pci_command::{List, NoMemory};
use std::alloc::Global;

/// The journeys of the items of a run, complete or not, in the order of sending; from its events,
/// the oldest first.
pub fn journeys_of(alloc: Global, tree: &Tree, events: &[Event]) -> Result<List<Journey>, NoMemory>
    requires { Run tree.now (history_of events.now) }
    ensures exact { IfOk result (λ journeys. journeys ≡ journeys_in tree.now events.now) }
    ensures shows { IfOk result (λ journeys. ShowsRun tree.now events.now journeys) }
{
    runs_are_few(tree, events);
    let mut kept = Kept::new(alloc, tree)?;
    let mut travel = Travel::new(alloc);
    for (before, event) in events.iter().enumerate() {
        let n = (before + 1) as u32;
        happen(&mut travel, &mut kept, alloc, tree, n, event)?;
    }
    Ok(List::from_vec(travel.journeys))
}

/// The events of a run are few.
fn runs_are_few(tree: &Tree, events: &[Event])
    requires { Run tree.now (history_of events.now) }
    ensures { length events.now < 2 ^ 32 }
{
    runs_end();
    let _valid = tree.board();
}

/// Event number n happens, which is allowed next.
fn happen(
    travel: &mut Travel,
    kept: &mut Kept,
    alloc: Global,
    tree: &Tree,
    n: u32,
    event: &Event,
) -> Result<(), NoMemory>
    requires stands { Stands tree.now kept.old }
    requires listed { IsListed travel.old.journeys.items travel.old.under_way.items }
    ensures now { (h : List Event) → StandsFor tree.now h kept.old → Allowed tree.now h event.now →
        OnOk result (travel.new.journeys.items
        ≡ next tree.now (world_of tree.now h) n event.now travel.old.journeys.items) }
    ensures stands { (h : List Event) → StandsFor tree.now h kept.old →
        Allowed tree.now h event.now → OnOk result (StandsFor tree.now (event.now ∷ h) kept.new) }
    ensures listed { OnOk result
        (IsListed travel.new.journeys.items travel.new.under_way.items) }
{
    let found = step_on(kept, tree, event);
    let moves = moves_in(tree.board(), Rule::Tagged, event, found);
    travel.follow(alloc, n, moves.as_slice())
}

/// The event happens to what is kept, where it is allowed next; and what it found on the lanes.
fn step_on(kept: &mut Kept, tree: &Tree, event: &Event) -> Moved
    requires { Stands tree.now kept.old }
    ensures stands { (h : List Event) → StandsFor tree.now h kept.old →
        Allowed tree.now h event.now → StandsFor tree.now (event.now ∷ h) kept.new }
    ensures moved { (h : List Event) → StandsFor tree.now h kept.old →
        Allowed tree.now h event.now →
        result ≡ moved_by Tagged tree.now (world_of tree.now h) event.now }
{
    match kept.step(tree, event) {
        Ok(found) => found,
        Err(_) => Moved::default(),
    }
}

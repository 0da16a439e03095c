ghost use Rattle.std.specs.Prelude.{◌<◌, ◌^◌, [], length, IsTrue};
ghost use Rattle.history_model.specs.declared.rule.Rule.{Rule as AnyRule};
ghost use Rattle.judge_state.specs.Stands.{StandsForBy};
ghost use Rattle.board_model.specs.WellFormed.{is_well_formed};

use crate::cause::reason_of;
use crate::filling::fill_all;
use crate::left::all_left;
use crate::past::Past;
use crate::reason::Reason;
use crate::scene::Scene;
use board_tree::Tree;
use history_model::{Event, Rule, Why};
use judge_state::Kept;
use machine_moves::moves_in;
use pci_command::NoMemory;
use std::alloc::Global;

/// What is told of events.
#[derive(Drop)]
pub enum Findings {
    /// The event at this place, from 0, is not allowed after those before it.
    Refused {
        place: usize,
        why: Why,
        reason: Reason,
    },
    /// All are allowed: a sentence for each master that has not ended, and for each item that has
    /// not left, of the first nine.
    Left(Vec<String>),
}

/// What is told of events by the rule of the bridge: nothing of 2^32 events or more.
pub fn reasons(
    alloc: Global,
    tree: &Tree,
    events: &[Event],
    rule: Rule,
) -> Result<Findings, NoMemory> {
    if events.len() > u32::MAX as usize {
        return Ok(Findings::Left(Vec::new(alloc)));
    }
    let mut kept = Kept::by_rule(alloc, tree, rule)?;
    let mut past = Past::new(alloc);
    let refused = take_all(&mut kept, &mut past, tree, rule, events)?;
    let scene = Scene {
        alloc,
        board: tree.board(),
        kept: &kept,
        past: &past,
        rule,
    };
    told_of(&scene, events, refused)
}

/// What is told of the acts among events, behind each of which all that it puts in flight arrives.
pub fn reasons_filled(alloc: Global, tree: &Tree, events: &[Event]) -> Result<Findings, NoMemory> {
    let mut kept = Kept::new(alloc, tree)?;
    let mut past = Past::new(alloc);
    let refused = fill_all(&mut kept, &mut past, tree, events)?;
    let scene = Scene {
        alloc,
        board: tree.board(),
        kept: &kept,
        past: &past,
        rule: Rule::Tagged,
    };
    told_of(&scene, events, refused)
}

/// The events happen one after another to what is kept, and their moves are noted down, up to the
/// first that is not allowed: its place, from 0, and why.
fn take_all(
    kept: &mut Kept,
    past: &mut Past,
    tree: &Tree,
    rule: Rule,
    events: &[Event],
) -> Result<Option<(usize, Why)>, NoMemory>
    requires few { length events.now < 2 ^ 32 }
    requires start { (rule : AnyRule) × StandsForBy rule tree.now [] kept.old }
{
    for (place, event) in events.iter().enumerate() {
        match kept.step_by_rule(tree, event) {
            Ok(found) => {
                let moves = moves_in(tree.board(), rule, event, found);
                past.note(place.saturating_add(1), moves.as_slice())?;
            }
            Err(why) => return Ok(Some((place, why))),
        }
    }
    Ok(None)
}

fn told_of(
    scene: &Scene,
    events: &[Event],
    refused: Option<(usize, Why)>,
) -> Result<Findings, NoMemory>
    requires { IsTrue (is_well_formed scene.now.board.now) }
{
    if let Some((place, why)) = refused
        && let Some(event) = events.get(place)
    {
        let reason = reason_of(scene, event, why)?;
        return Ok(Findings::Refused { place, why, reason });
    }
    Ok(Findings::Left(all_left(scene)?))
}

//! What is left of a run that has not ended: who waits for what.
ghost use Rattle.std.specs.Prelude.{IsTrue};
ghost use Rattle.board_model.specs.WellFormed.{is_well_formed};

use crate::retry::put_held;
use crate::scene::Scene;
use crate::words::put_item;
use board_model::{Lane, end_of};
use history_model::{Answer, By, Carried};
use machine_steps::{Presented, act_given, arrival_of};
use pci_command::{NoMemory, OpId};
use trace_text::LaneWord;

/// How many are told of.
const MOST: usize = 9; // not a limit

/// A sentence for each master that has not ended, and then for each item that has not left.
pub(crate) fn all_left(scene: &Scene) -> Result<Vec<String>, NoMemory>
    requires { IsTrue (is_well_formed scene.now.board.now) }
{
    let mut notes = Vec::new(scene.alloc);
    put_masters(&mut notes, scene)?;
    put_lanes(&mut notes, scene)?;
    Ok(notes)
}

/// For each master that has not ended, what its turn waits for.
fn put_masters(notes: &mut Vec<String>, scene: &Scene) -> Result<(), NoMemory>
    requires { IsTrue (is_well_formed scene.now.board.now) }
{
    for (number, master) in scene.board.masters.as_slice().iter().enumerate() {
        let Ok(number) = u16::try_from(number) else {
            break;
        };
        if notes.len() >= MOST {
            break;
        }
        if let Some(op) = scene.kept.turn(number) {
            notes.push(master_note(scene, master.bus, op)?)?;
        }
    }
    Ok(())
}

fn master_note(scene: &Scene, bus: u8, op: OpId) -> Result<String, NoMemory>
    requires { IsTrue (is_well_formed scene.now.board.now) }
{
    let presented = Presented {
        bus,
        by: By::Master,
        op,
    };
    let mut note = String::new(scene.alloc);
    scene.put_op(&mut note, op)?;
    put_going(&mut note, scene, presented, true)?;
    Ok(note)
}

/// Whether what is presented may go on, or what it waits for, told whole or in few words.
fn put_going(
    text: &mut String,
    scene: &Scene,
    presented: Presented,
    is_whole: bool,
) -> Result<(), NoMemory>
    requires { IsTrue (is_well_formed scene.now.board.now) }
{
    text.push_str(" ")?;
    let answer = scene.kept.answer(scene.board, presented);
    match answer {
        Answer::Retry { cause } => {
            text.push_str("waits: ")?;
            put_held(text, scene, presented, cause, is_whole)
        }
        Answer::Gives { .. } => match act_given(presented, answer) {
            Some(event) => {
                text.push_str("may go on: ")?;
                scene.put_line(text, &event)
            }
            None => Ok(()),
        },
    }
}

/// For each item that stands or is in flight, what it waits for.
fn put_lanes(notes: &mut Vec<String>, scene: &Scene) -> Result<(), NoMemory>
    requires { IsTrue (is_well_formed scene.now.board.now) }
{
    for bridge in scene.board.bridges.as_slice() {
        for up in [false, true] {
            let lane = Lane {
                bus: bridge.bus,
                up,
            };
            put_lane(notes, scene, lane)?;
        }
    }
    Ok(())
}

fn put_lane(notes: &mut Vec<String>, scene: &Scene, lane: Lane) -> Result<(), NoMemory>
    requires { IsTrue (is_well_formed scene.now.board.now) }
{
    let Some(lanes) = scene.kept.lanes_to(scene.board, lane.bus) else {
        return Ok(());
    };
    let tables = lanes.lane(lane.up);
    for (place, item) in tables.standing().iter().enumerate() {
        if notes.len() >= MOST {
            return Ok(());
        }
        let standing = tables.standing();
        let (older, _) = standing.split_at(place.min(standing.len()));
        notes.push(standing_note(scene, lane, *item, older)?)?;
    }
    for (place, item) in tables.flight().iter().enumerate() {
        if notes.len() >= MOST {
            return Ok(());
        }
        notes.push(flight_note(scene, lane, *item, place)?)?;
    }
    Ok(())
}

/// What an item waits for that stands on a lane behind older ones.
fn standing_note(
    scene: &Scene,
    lane: Lane,
    item: Carried,
    older: &[Carried],
) -> Result<String, NoMemory>
    requires { IsTrue (is_well_formed scene.now.board.now) }
{
    let mut note = String::new(scene.alloc);
    put_item(&mut note, scene.board, item)?;
    put_stands(&mut note, scene, lane, item)?;
    put_wait(&mut note, scene, lane, item, older)?;
    Ok(note)
}

fn put_stands(note: &mut String, scene: &Scene, lane: Lane, item: Carried) -> Result<(), NoMemory> {
    write!(note, " stands on {}", LaneWord(lane))?;
    scene.put_since(note, lane, item)
}

/// How what the lane presents is answered, or behind what the item waits.
fn put_wait(
    note: &mut String,
    scene: &Scene,
    lane: Lane,
    item: Carried,
    older: &[Carried],
) -> Result<(), NoMemory>
    requires { IsTrue (is_well_formed scene.now.board.now) }
{
    if let Carried::Post { op } | Carried::Ask { op, .. } = item {
        let presented = Presented {
            bus: end_of(scene.board, lane),
            by: By::Lane(lane),
            op,
        };
        if scene.kept.wants(scene.board, presented) {
            note.push_str(" and")?;
            return put_going(note, scene, presented, false);
        }
    }
    scene.put_behind(note, lane, item, older)
}

/// An item in flight, and its arrival where it is the next.
fn flight_note(scene: &Scene, lane: Lane, item: Carried, place: usize) -> Result<String, NoMemory> {
    let mut note = String::new(scene.alloc);
    put_flight(&mut note, scene, lane, item, place)?;
    Ok(note)
}

fn put_flight(
    note: &mut String,
    scene: &Scene,
    lane: Lane,
    item: Carried,
    place: usize,
) -> Result<(), NoMemory> {
    put_item(note, scene.board, item)?;
    write!(note, " is in flight on {}", LaneWord(lane))?;
    match arrival_of(lane, scene.kept.next_mark(scene.board, lane)) {
        Some(event) if place == 0 => {
            note.push_str(": ")?;
            scene.put_line(note, &event)
        }
        _ => Ok(()),
    }
}

//! Why a lane does not present an operation.
use crate::past::Went;
use crate::reason::Reason;
use crate::scene::Scene;
use crate::words::{kind_words, put_item, put_item_op, put_since};
use board_model::{Lane, end_of};
use history_model::Carried;
use machine_steps::{Presented, place_of_request};
use pci_command::{NoMemory, OpId};
use trace_text::LaneWord;

/// Why a lane does not present an operation on a bus.
pub(crate) fn put_lane_reason(
    reason: &mut Reason,
    scene: &Scene,
    presented: Presented,
    lane: Lane,
) -> Result<(), NoMemory> {
    let end = end_of(scene.board, lane);
    if end != presented.bus {
        let word = LaneWord(lane);
        write!(reason.text, "{word} ends at bus {end}, and not here")?;
        return Ok(());
    }
    let Some(lanes) = scene.kept.lanes_to(scene.board, lane.bus) else {
        return put_not_there(reason, scene, lane, presented.op, &[]);
    };
    let tables = lanes.lane(lane.up);
    let standing = tables.standing();
    if place_of_request(tables.flight(), presented.op).is_some() {
        return put_in_flight(reason, scene, lane, presented);
    }
    match place_of_request(standing, presented.op) {
        Some(place) => {
            let (older, rest) = standing.split_at(place.min(standing.len()));
            match rest {
                [item, ..] => put_waiting(reason, scene, lane, *item, older),
                [] => Ok(()),
            }
        }
        None => put_not_there(reason, scene, lane, presented.op, standing),
    }
}

fn put_in_flight(
    reason: &mut Reason,
    scene: &Scene,
    lane: Lane,
    presented: Presented,
) -> Result<(), NoMemory> {
    let word = LaneWord(lane);
    scene.put_op(&mut reason.text, presented.op)?;
    write!(reason.text, " is in flight on {word}, and has not arrived")?;
    let bus = presented.bus;
    reason.note(format!(in scene.alloc;
        "a line `{bus} arrive {word}` before this one brings it; pcitree fill FILE puts in what is missing"
    )?)
}

/// What the item stands behind: an older equal request, or else what it may not pass.
fn put_waiting(
    reason: &mut Reason,
    scene: &Scene,
    lane: Lane,
    item: Carried,
    older: &[Carried],
) -> Result<(), NoMemory> {
    let bus = end_of(scene.board, lane);
    match scene.equal_before(bus, item, older) {
        Some(other) => put_behind_equal(reason, scene, lane, item, other),
        None => match scene.not_passed(bus, item, older) {
            Some(other) => put_behind_other(reason, scene, lane, item, other),
            None => scene.put_standing(&mut reason.text, lane, item),
        },
    }
}

fn put_behind_equal(
    reason: &mut Reason,
    scene: &Scene,
    lane: Lane,
    item: Carried,
    other: Carried,
) -> Result<(), NoMemory> {
    put_item_op(&mut reason.text, scene.board, item)?;
    put_place(&mut reason.text, scene, lane, item)?;
    reason.text.push_str(", behind an equal request of ")?;
    put_item_op(&mut reason.text, scene.board, other)?;
    reason.note(equal_note(scene, lane, other)?)
}

/// On which lane the item stands, and since when.
fn put_place(text: &mut String, scene: &Scene, lane: Lane, item: Carried) -> Result<(), NoMemory> {
    write!(text, " stands on {}", LaneWord(lane))?;
    scene.put_since(text, lane, item)
}

fn equal_note(scene: &Scene, lane: Lane, other: Carried) -> Result<String, NoMemory> {
    let mut note = String::new(scene.alloc);
    put_equal_note(&mut note, scene, lane, other)?;
    Ok(note)
}

fn put_equal_note(
    note: &mut String,
    scene: &Scene,
    lane: Lane,
    other: Carried,
) -> Result<(), NoMemory> {
    put_item_op(note, scene.board, other)?;
    note.push_str(" stands there")?;
    scene.put_since(note, lane, other)?;
    note.push_str("; of equal requests the older goes first")?;
    Ok(())
}

fn put_behind_other(
    reason: &mut Reason,
    scene: &Scene,
    lane: Lane,
    item: Carried,
    other: Carried,
) -> Result<(), NoMemory> {
    put_item(&mut reason.text, scene.board, item)?;
    put_place(&mut reason.text, scene, lane, item)?;
    reason.text.push_str(", behind ")?;
    put_item_op(&mut reason.text, scene.board, other)?;
    reason.note(other_note(scene, lane, other)?)?;
    reason.note(table_note(scene, item, other)?)
}

fn other_note(scene: &Scene, lane: Lane, other: Carried) -> Result<String, NoMemory> {
    let mut note = String::new(scene.alloc);
    put_other_note(&mut note, scene, lane, other)?;
    Ok(note)
}

fn put_other_note(
    note: &mut String,
    scene: &Scene,
    lane: Lane,
    other: Carried,
) -> Result<(), NoMemory> {
    put_item_op(note, scene.board, other)?;
    write!(
        note,
        " ({}) stands there",
        kind_words(scene.board, other).name
    )?;
    scene.put_since(note, lane, other)
}

/// What the ordering table says of an item and one that is older.
fn table_note(scene: &Scene, item: Carried, other: Carried) -> Result<String, NoMemory> {
    let row = kind_words(scene.board, item);
    let column = kind_words(scene.board, other);
    let note = format!(in scene.alloc;
        "a {} does not pass a {} (row {}, column {} of the table)",
        row.name, column.name, row.row, column.row
    )?;
    Ok(note)
}

/// The operation left the lane, was dropped there, or was never sent on it.
fn put_not_there(
    reason: &mut Reason,
    scene: &Scene,
    lane: Lane,
    op: OpId,
    standing: &[Carried],
) -> Result<(), NoMemory> {
    let word = LaneWord(lane);
    scene.put_op(&mut reason.text, op)?;
    match scene.past.went(lane, op) {
        Went::Left { event } => write!(reason.text, " left {word} at event {event}")?,
        Went::Dropped => write!(reason.text, " was dropped on {word}")?,
        Went::Nowhere => {
            write!(reason.text, " was not sent on {word}")?;
            reason.note(standing_note(scene, lane, standing)?)?;
        }
    }
    Ok(())
}

/// All that stands on a lane.
fn standing_note(scene: &Scene, lane: Lane, standing: &[Carried]) -> Result<String, NoMemory> {
    let word = LaneWord(lane);
    if standing.is_empty() {
        return Ok(format!(in scene.alloc; "nothing stands on {word}")?);
    }
    let mut note = format!(in scene.alloc; "{word} has:")?;
    put_all(&mut note, scene, lane, standing)?;
    Ok(note)
}

fn put_all(
    note: &mut String,
    scene: &Scene,
    lane: Lane,
    standing: &[Carried],
) -> Result<(), NoMemory> {
    for (place, item) in standing.iter().enumerate() {
        if place > 0 {
            note.push_str(",")?;
        }
        put_one(note, scene, lane, *item)?;
    }
    Ok(())
}

fn put_one(note: &mut String, scene: &Scene, lane: Lane, item: Carried) -> Result<(), NoMemory> {
    let since = scene.past.since(lane, item);
    note.push_str(" ")?;
    put_item_op(note, scene.board, item)?;
    write!(note, " ({}", kind_words(scene.board, item).name)?;
    if since.is_some() {
        note.push_str(",")?;
    }
    put_since(note, since)?;
    note.push_str(")")?;
    Ok(())
}

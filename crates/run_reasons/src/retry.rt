//! Why a bridge has to answer with Retry.
ghost use Rattle.std.specs.Prelude.{IsTrue};
ghost use Rattle.board_model.specs.WellFormed.{is_well_formed};

use crate::past::back_of;
use crate::reason::Reason;
use crate::scene::Scene;
use crate::words::put_counted;
use board_model::{Lane, Place, bridge_to, claim_in_space, request_of};
use history_model::{Carried, Cause, Slot};
use machine_steps::{Presented, address_left, own_slot, place_of_completion};
use pci_command::{NoMemory, OpId, same_op};
use trace_text::LaneWord;

/// Why the bridge that claims what is presented has to answer with Retry.
pub(crate) fn put_retry(
    reason: &mut Reason,
    scene: &Scene,
    presented: Presented,
    cause: Cause,
) -> Result<(), NoMemory>
    requires { IsTrue (is_well_formed scene.now.board.now) }
{
    reason
        .text
        .push_str("the bridge has to answer with Retry: ")?;
    put_lacks(&mut reason.text, scene, presented, cause)?;
    reason.note(held_note(scene, presented, cause)?)?;
    if matches!(cause, Cause::Behind) {
        let rule = "a delayed read completion does not pass a posted write";
        let table = "(row DRC, column PMW of the table)";
        reason.note(format!(in scene.alloc; "{rule} {table}")?)?;
    }
    Ok(())
}

/// What the bridge lacks, of which this is the cause.
fn put_lacks(
    text: &mut String,
    scene: &Scene,
    presented: Presented,
    cause: Cause,
) -> Result<(), NoMemory>
    requires { IsTrue (is_well_formed scene.now.board.now) }
{
    let (posted, delayed) = depths(scene, presented);
    match cause {
        Cause::Full => {
            text.push_str("it holds ")?;
            put_counted(text, posted, "posted writes")?;
            text.push_str(" already")?;
        }
        Cause::NoSlot => {
            text.push_str("it keeps ")?;
            put_counted(text, delayed, "delayed requests")?;
            text.push_str(" already")?;
        }
        Cause::Waiting => {
            text.push_str("the completion of ")?;
            scene.put_op(text, presented.op)?;
            text.push_str(" has not come")?;
        }
        Cause::Behind => text.push_str("a posted write stands before the completion")?,
    }
    Ok(())
}

/// How many posted writes and delayed requests the bridge keeps that claims what is presented.
fn depths(scene: &Scene, presented: Presented) -> (u8, u8)
    requires { IsTrue (is_well_formed scene.now.board.now) }
{
    match claimed_lane(scene, presented) {
        Some(lane) => match bridge_to(scene.board, lane.bus) {
            Some(bridge) => (bridge.posted, bridge.delayed),
            None => (0, 0),
        },
        None => (0, 0),
    }
}

fn held_note(scene: &Scene, presented: Presented, cause: Cause) -> Result<String, NoMemory>
    requires { IsTrue (is_well_formed scene.now.board.now) }
{
    let mut note = String::new(scene.alloc);
    put_held(&mut note, scene, presented, cause, false)?;
    Ok(note)
}

/// What is held, or what is waited for, by which the answer is Retry: of a request that a further
/// bridge latched all that is so there, or that alone.
pub(crate) fn put_held(
    text: &mut String,
    scene: &Scene,
    presented: Presented,
    cause: Cause,
    is_whole: bool,
) -> Result<(), NoMemory>
    requires { IsTrue (is_well_formed scene.now.board.now) }
{
    let Some(lane) = claimed_lane(scene, presented) else {
        return Ok(());
    };
    let Some(lanes) = scene.kept.lanes_to(scene.board, lane.bus) else {
        return Ok(());
    };
    let here = lanes.lane(lane.up);
    match cause {
        Cause::Full => put_owed(text, scene, lane, here.owed()),
        Cause::NoSlot => put_kept(text, scene, lane, here.held()),
        Cause::Waiting | Cause::Behind => {
            let noted = Presented {
                by: scene.rule.noted(presented.by),
                ..presented
            };
            match own_slot(scene.board, noted, here.held()) {
                Some(slot) => put_waited(text, scene, lane, slot, is_whole),
                None => Ok(()),
            }
        }
    }
}

/// The posted writes whose credit has not come back, by name.
fn put_owed(text: &mut String, scene: &Scene, lane: Lane, owed: u8) -> Result<(), NoMemory> {
    write!(text, "owed on {}:", LaneWord(lane))?;
    for op in &scene.past.accepted(scene.alloc, lane, owed)? {
        put_named(text, scene, *op)?;
    }
    Ok(())
}

/// The delayed requests that are kept, by name.
fn put_kept(text: &mut String, scene: &Scene, lane: Lane, held: &[Slot]) -> Result<(), NoMemory> {
    write!(text, "kept on {}:", LaneWord(lane))?;
    for slot in held {
        put_named(text, scene, slot.op)?;
    }
    Ok(())
}

fn put_named(text: &mut String, scene: &Scene, op: OpId) -> Result<(), NoMemory> {
    text.push_str(" ")?;
    scene.put_op(text, op)
}

/// Where the request of a slot is, or its completion: on the lanes of the furthest bridge that
/// holds a slot for it, or that this bridge latched it.
fn put_waited(
    text: &mut String,
    scene: &Scene,
    lane: Lane,
    slot: Slot,
    is_whole: bool,
) -> Result<(), NoMemory> {
    match furthest(scene, slot.op)? {
        Some((event, further, held)) if further != lane => {
            if is_whole {
                return put_slot(text, scene, further, held, true);
            }
            let word = LaneWord(further);
            write!(text, "it was latched into {word} at event {event}")?;
            Ok(())
        }
        _ => put_slot(text, scene, lane, slot, is_whole),
    }
}

/// The last lane into which the operation was latched whose bridge still holds a slot for it: the
/// event by which it was, the lane, and the slot.
fn furthest(scene: &Scene, op: OpId) -> Result<Option<(usize, Lane, Slot)>, NoMemory> {
    for (event, lane) in &scene.past.latched(scene.alloc, op)? {
        if let Some(slot) = slot_of(scene, *lane, op) {
            return Ok(Some((*event, *lane, slot)));
        }
    }
    Ok(None)
}

/// The slot that is held for the operation where the lane begins.
fn slot_of(scene: &Scene, lane: Lane, op: OpId) -> Option<Slot> {
    let lanes = scene.kept.lanes_to(scene.board, lane.bus)?;
    for slot in lanes.lane(lane.up).held() {
        if same_op(slot.op, op) {
            return Some(*slot);
        }
    }
    None
}

/// Where on the lanes of its bridge the request of a slot is, or its completion.
fn put_slot(
    text: &mut String,
    scene: &Scene,
    lane: Lane,
    slot: Slot,
    is_whole: bool,
) -> Result<(), NoMemory> {
    let Some(lanes) = scene.kept.lanes_to(scene.board, lane.bus) else {
        return Ok(());
    };
    let here = lanes.lane(lane.up);
    if place_of_ask(here.flight(), slot.number).is_some() {
        write!(text, "its request is in flight on {}", LaneWord(lane))?;
        return Ok(());
    }
    if let Some(place) = place_of_ask(here.standing(), slot.number) {
        put_request(text, scene, lane, slot)?;
        if !is_whole {
            return Ok(());
        }
        return put_behind_at(text, scene, lane, place, here.standing());
    }
    let back = lanes.lane(!lane.up);
    if let Some(place) = place_of_completion(back.standing(), slot.number) {
        put_completion(text, scene, lane, slot.op)?;
        return put_place(text, scene, back_of(lane), place, back.standing());
    }
    put_far(
        text,
        lane,
        place_of_completion(back.flight(), slot.number).is_some(),
    )
}

/// The completion is on its way to the bridge, or the word that its request was dropped.
fn put_far(text: &mut String, lane: Lane, is_completion: bool) -> Result<(), NoMemory> {
    let what = if is_completion {
        "its completion"
    } else {
        "the word that its request was dropped"
    };
    write!(text, "{what} is in flight on {}", LaneWord(back_of(lane)))?;
    Ok(())
}

/// A request of a slot, as it stands on a lane.
fn put_request(text: &mut String, scene: &Scene, lane: Lane, slot: Slot) -> Result<(), NoMemory> {
    let item = Carried::Ask {
        op: slot.op,
        slot: slot.number,
    };
    write!(text, "its request stands on {}", LaneWord(lane))?;
    scene.put_since(text, lane, item)
}

/// Behind what the item waits that stands at this place of a lane.
fn put_behind_at(
    text: &mut String,
    scene: &Scene,
    lane: Lane,
    place: usize,
    standing: &[Carried],
) -> Result<(), NoMemory> {
    let (older, rest) = standing.split_at(place.min(standing.len()));
    match rest {
        [item, ..] => scene.put_behind(text, lane, *item, older),
        [] => Ok(()),
    }
}

/// The completion of an operation, which goes back on the bridge of the lane.
fn put_completion(text: &mut String, scene: &Scene, lane: Lane, op: OpId) -> Result<(), NoMemory> {
    text.push_str("the completion of ")?;
    scene.put_op(text, op)?;
    write!(text, " stands on {}", LaneWord(back_of(lane)))?;
    Ok(())
}

/// Since when the item at this place of a lane stands there, and behind what it waits.
fn put_place(
    text: &mut String,
    scene: &Scene,
    lane: Lane,
    place: usize,
    standing: &[Carried],
) -> Result<(), NoMemory> {
    if let Some(item) = standing.get(place) {
        scene.put_since(text, lane, *item)?;
    }
    put_behind_at(text, scene, lane, place, standing)
}

/// The place of the delayed request for the slot.
fn place_of_ask(items: &[Carried], number: u8) -> Option<usize> {
    items.iter().position(|item| match item {
        Carried::Ask { slot, .. } => *slot == number,
        _ => false,
    })
}

/// The lane that claims what is presented.
fn claimed_lane(scene: &Scene, presented: Presented) -> Option<Lane>
    requires { IsTrue (is_well_formed scene.now.board.now) }
{
    let request = request_of(scene.board, presented.op, presented.bus)?;
    let through = u128::from(scene.kept.through(presented.op));
    let address = address_left(&request, through);
    let space = request.command.space();
    match claim_in_space(scene.board, presented.bus, space, address) {
        Place::Lane(lane) => Some(lane),
        Place::Target(_) | Place::Header(_) | Place::Nobody => None,
    }
}

use crate::seen::act::Refusal;
use crate::words::put_op;
use board_model::{Lane, Place};
use history_model::{By, Event, Step};
use observe_told::{ActsTold, Brought};
use pci_command::{NoMemory, OpId};
use std::alloc::Global;

/// The operations that the lane took by this step and still holds, each with its line.
pub(crate) fn put_held(
    text: &mut String,
    refusal: &Refusal,
    lane: Lane,
    step: Step,
) -> Result<(), NoMemory> {
    let held = held_ops(refusal.alloc, refusal.told, lane, step)?;
    put_all(text, refusal, held.as_slice())
}

fn put_all(text: &mut String, refusal: &Refusal, held: &[Brought]) -> Result<(), NoMemory> {
    for (place, held) in held.iter().enumerate() {
        if place > 0 {
            text.push_str("; ")?;
        }
        put_op(text, refusal.board, held.op)?;
        write!(text, ", {}", refusal.log.word_of(held.line))?;
    }
    Ok(())
}

fn held_ops(
    alloc: Global,
    told: &ActsTold,
    lane: Lane,
    step: Step,
) -> Result<Vec<Brought>, NoMemory> {
    let mut held: Vec<Brought> = Vec::new(alloc);
    let taken = told.acts.as_slice().iter().take(told.taken);
    for (event, line) in taken.zip(told.lines.as_slice()) {
        match came(event, lane, step) {
            Some(op) => held.push(Brought { op, line: *line })?,
            None => {
                if let Some(gone) = went(event, lane, step) {
                    held.retain(|held| held.op != gone);
                }
            }
        }
    }
    Ok(held)
}

/// The operation that the lane took by this step, if the event is that.
fn came(event: &Event, lane: Lane, wanted: Step) -> Option<OpId> {
    match event {
        Event::Act {
            op,
            step,
            place,
            ..
        } if *step == wanted && *place == Place::Lane(lane) => Some(*op),
        _ => None,
    }
}

/// The operation that the event frees: a posted write goes on by it, and of a delayed request the
/// completion was taken.
fn went(event: &Event, lane: Lane, wanted: Step) -> Option<OpId> {
    match event {
        Event::Act {
            by,
            op,
            step,
            place,
            ..
        } => {
            let is_free = match wanted {
                Step::Accept => *by == By::Lane(lane),
                _ => matches!(step, Step::Take(_)) && *place == Place::Lane(lane),
            };
            if is_free { Some(*op) } else { None }
        }
        Event::Arrive { .. } => None,
    }
}

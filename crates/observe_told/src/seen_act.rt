use crate::{MaybeOp, MaybePlace, Seen, Who};
use board_model::Place;
use history_model::{By, Event, Step};
use pci_command::{NoMemory, OpId};
use std::alloc::Global;
use std::mem::replace;

/// An act of a line: the line is named by its place in the log, from 0. Its operation is a first
/// try.
#[derive(Clone, Copy, Debug, PartialEq, Eq)]
pub struct SeenAct {
    pub line: u32,
    pub op: OpId,
    pub step: Step,
    pub place: Place,
}

/// What is kept of an act: the same in fewer bytes, and the place of the next act of its bus.
#[derive(Clone, Copy, Debug)]
struct Kept {
    line: u32,
    op: MaybeOp,
    step: Step,
    place: Place,
    next: MaybePlace,
}

/// Acts of lines, of which there are many. Each is named by its place among all.
#[derive(Debug, Drop)]
pub struct LineActs {
    acts: Vec<Kept>,
    /// Of each bus the first and the last.
    firsts: Vec<MaybePlace>,
    lasts: Vec<MaybePlace>,
}

impl SeenAct {
    /// The act as an event.
    pub fn event(&self, seen: &Seen) -> Event {
        let by = match seen.who {
            Who::Master(_) => By::Master,
            Who::Lane(lane) => By::Lane(lane),
        };
        Event::Act {
            bus: seen.bus,
            by,
            op: self.op,
            step: self.step,
            place: self.place,
        }
    }
}

impl LineActs {
    /// None yet, and room for so many.
    pub fn with_room(alloc: Global, count: usize) -> Result<LineActs, NoMemory> {
        Ok(LineActs {
            acts: Vec::with_capacity(alloc, count)?,
            firsts: vec![in alloc; MaybePlace::NONE; 256]?,
            lasts: vec![in alloc; MaybePlace::NONE; 256]?,
        })
    }

    /// One more, behind the others of its bus.
    pub fn push(&mut self, bus: u8, act: SeenAct) -> Result<(), NoMemory> {
        let SeenAct {
            line,
            op,
            step,
            place,
        } = act;
        let here = MaybePlace::some(u32::try_from(self.acts.len()).unwrap_or(u32::MAX));
        self.acts.push(Kept {
            line,
            op: MaybeOp::some(op),
            step,
            place,
            next: MaybePlace::NONE,
        })?;
        let last = self.lasts.get_mut(usize::from(bus));
        let before = last.and_then(|last| replace(last, here).get());
        if let Some(before) = before.and_then(|before| self.acts.get_mut(before as usize)) {
            before.next = here;
        } else if let Some(first) = self.firsts.get_mut(usize::from(bus)) {
            *first = here;
        }
        Ok(())
    }

    /// How many there are.
    pub fn count(&self) -> usize {
        self.acts.len()
    }

    /// The place of the first act of the bus.
    pub fn first_on(&self, bus: u8) -> Option<u32> {
        self.firsts.get(usize::from(bus))?.get()
    }

    /// The place of the next act of the bus of this one.
    pub fn behind(&self, place: u32) -> Option<u32> {
        self.acts.get(place as usize)?.next.get()
    }

    /// The act at this place.
    pub fn get(&self, place: u32) -> Option<SeenAct> {
        let kept = self.acts.get(place as usize)?;
        Some(SeenAct {
            line: kept.line,
            op: kept.op.get()?,
            step: kept.step,
            place: kept.place,
        })
    }
}

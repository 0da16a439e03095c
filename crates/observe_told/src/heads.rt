use crate::{LineActs, Seen, SeenAct};
use board_model::Place;
use history_model::Event;
use pci_command::{NoMemory, OpId};
use std::alloc::Global;

/// The next act of a bus, by its place among all acts.
#[derive(Clone, Copy, Debug)]
pub struct Candidate {
    start: u64,
    pub end: u64,
    pub line: u32,
    place: u32,
    pub bus: u8,
    /// It was refused, and nothing happened on its bus since.
    is_refused: bool,
}

/// The acts that are left of each bus.
#[derive(Debug, Drop)]
pub struct Heads<'a> {
    acts: &'a LineActs,
    lines: &'a [Seen],
    /// The next act of each bus, by when its line began.
    candidates: Vec<Candidate>,
}

impl<'a> Heads<'a> {
    /// All acts.
    pub fn new(
        alloc: Global,
        acts: &'a LineActs,
        lines: &'a [Seen],
    ) -> Result<Heads<'a>, NoMemory> {
        let mut all = Heads {
            acts,
            lines,
            candidates: Vec::new(alloc),
        };
        for bus in 0..=255u8 {
            if let Some(candidate) = all.candidate(acts.first_on(bus)) {
                all.candidates.push(candidate)?;
            }
        }
        all.candidates
            .sort_unstable_by_key(|candidate| (candidate.start, candidate.line));
        Ok(all)
    }

    /// The lines of the log.
    pub fn seen(&self, line: u32) -> Option<&'a Seen> {
        self.lines.get(line as usize)
    }

    /// The lines before this one.
    pub fn before(&self, line: u32) -> &'a [Seen] {
        self.lines.get(..line as usize).unwrap_or(&[])
    }

    /// The act of the candidate.
    pub fn act(&self, candidate: &Candidate) -> Option<SeenAct> {
        self.acts.get(candidate.place)
    }

    /// The same as an event.
    pub fn event(&self, candidate: &Candidate) -> Option<Event> {
        let act = self.act(candidate)?;
        Some(act.event(self.seen(act.line)?))
    }

    /// How many acts there are in all.
    pub fn total(&self) -> usize {
        self.acts.count()
    }

    /// The next acts that no line which ended before keeps from being the next of all, by when
    /// their lines began.
    pub fn candidates(&self) -> &[Candidate] {
        let all = self.candidates.as_slice();
        let mut first_end = u64::MAX;
        for candidate in all {
            first_end = first_end.min(candidate.end);
        }
        let count = all.partition_point(|candidate| candidate.start <= first_end);
        all.get(..count).unwrap_or(all)
    }

    /// The act of the candidate at this place, unless it cannot be allowed.
    pub fn untried(&self, place: usize) -> Option<Event> {
        let candidate = self.candidates.get(place)?;
        if candidate.is_refused {
            None
        } else {
            self.event(candidate)
        }
    }

    /// The candidate at this place was refused.
    pub fn refuse(&mut self, place: usize) {
        if let Some(candidate) = self.candidates.get_mut(place) {
            candidate.is_refused = true;
        }
    }

    /// The candidate at this place was taken: its bus goes on to the next act. The line of the act.
    pub fn take(&mut self, place: usize) -> u32 {
        let Some(taken) = self.candidates.get(place).copied() else {
            return 0;
        };
        match self.candidate(self.acts.behind(taken.place)) {
            Some(next) => put(&mut self.candidates, place, next),
            None => self.close(place),
        }
        taken.line
    }

    fn close(&mut self, place: usize) {
        if place < self.candidates.len() {
            self.candidates.remove(place);
        }
    }

    /// Something happened on this bus: what was refused there may be allowed now.
    pub fn stir(&mut self, bus: u8) {
        for candidate in self.candidates.iter_mut() {
            if candidate.bus == bus {
                candidate.is_refused = false;
            }
        }
    }

    /// The act at this place, if there is one.
    fn candidate(&self, place: Option<u32>) -> Option<Candidate> {
        let place = place?;
        let line = self.acts.get(place)?.line;
        let seen = self.seen(line)?;
        Some(Candidate {
            start: seen.start,
            end: seen.end,
            line,
            place,
            bus: seen.bus,
            is_refused: false,
        })
    }

    /// Whether an act of the operation is left on the bus.
    pub fn has_left(&self, bus: u8, op: OpId) -> bool {
        let mut left = self.left_on(bus);
        for _act in 0..self.acts.count() {
            match left.and_then(|place| self.acts.get(place)) {
                Some(act) if act.op == op => return true,
                Some(_) => left = left.and_then(|place| self.acts.behind(place)),
                None => return false,
            }
        }
        false
    }

    /// The first line that is left on the bus at which the operation is claimed so.
    pub fn first_left(&self, bus: u8, op: OpId, claimed: Place) -> Option<u32> {
        let mut left = self.left_on(bus);
        for _act in 0..self.acts.count() {
            let act = self.acts.get(left?)?;
            if act.op == op && act.place == claimed {
                return Some(act.line);
            }
            left = self.acts.behind(left?);
        }
        None
    }

    /// The place of the next act of the bus.
    fn left_on(&self, bus: u8) -> Option<u32> {
        let next = self.candidates.iter().find(|next| next.bus == bus);
        next.map(|next| next.place)
    }

    /// All acts that are left, by when their lines began.
    pub fn left(&self, alloc: Global) -> Result<Vec<SeenAct>, NoMemory> {
        let mut left = Vec::new(alloc);
        for candidate in &self.candidates {
            let mut next = Some(candidate.place);
            for _act in 0..self.acts.count() {
                let Some(act) = next.and_then(|place| self.acts.get(place)) else {
                    break;
                };
                left.push(act)?;
                next = next.and_then(|place| self.acts.behind(place));
            }
        }
        let lines = self.lines;
        left.sort_by_key(|act| {
            (
                lines.get(act.line as usize).map_or(0, |seen| seen.start),
                act.line,
            )
        })?;
        Ok(left)
    }
}

/// The next act of the bus of the candidate at this place, whose line began no earlier.
fn put(candidates: &mut Vec<Candidate>, place: usize, next: Candidate) {
    if let Some(candidate) = candidates.get_mut(place) {
        *candidate = next;
    }
    for at in place..candidates.len() {
        let behind = at.saturating_add(1);
        if candidates.len() <= behind || !is_later(&candidates[at], &candidates[behind]) {
            break;
        }
        candidates.swap(at, behind);
    }
}

/// Whether its line began later.
fn is_later(one: &Candidate, other: &Candidate) -> bool {
    (other.start, other.line) < (one.start, one.line)
}

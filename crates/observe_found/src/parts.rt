use crate::errands::{Errands, Wanted};
use crate::ground::{Begun, Ends, Ground, NO_TIME, number};
use board_model::Lane;
use pci_command::NoMemory;
use std::alloc::Global;
use std::collections::HashMap;

/// An errand at one end of a lane, and where the next of its part stands; of the last it is itself.
#[derive(Clone, Copy, Default)]
pub(crate) struct Entry {
    pub(crate) errand: u32,
    pub(crate) next: u32,
    pub(crate) is_far: bool,
}

/// Errands of one request at one lane that are open together: behind them nothing of it is open.
/// Where the first and the last of them stand, how many near and far ones there are, and until when
/// one of them was open.
#[derive(Clone, Copy, Default)]
pub(crate) struct Span {
    pub(crate) first: u32,
    last: u32,
    pub(crate) nears: u32,
    pub(crate) fars: u32,
    pub(crate) reach: u64,
}

/// The parts of all lanes.
#[derive(Drop)]
pub(crate) struct Parts {
    pub(crate) entries: Vec<Entry>,
    /// Of each lane those that have far errands: those with few near ones first, as they began.
    of_lanes: Vec<Vec<Span>>,
    /// Of each errand of a lane the first time at which it can have been made for somebody.
    pub(crate) asked: Vec<u64>,
}

/// The parts of a lane so far, and of each request the last of them.
#[derive(Drop)]
struct LaneParts {
    spans: Vec<Span>,
    last: HashMap<Wanted, u32>,
}

/// A near errand: when it began, and how long it and those before it were open.
#[derive(Clone, Copy)]
struct Reach {
    start: u64,
    reach: u64,
}

impl Span {
    /// With one errand more, which stands there.
    fn with(self, at: u32, is_far: bool, until: u64) -> Span {
        Span {
            last: at,
            nears: self.nears.saturating_add(u32::from(!is_far)),
            fars: self.fars.saturating_add(u32::from(is_far)),
            reach: self.reach.max(until),
            ..self
        }
    }

    /// How many errands it has.
    pub(crate) fn count(&self) -> u32 {
        self.nears.saturating_add(self.fars)
    }
}

impl Parts {
    /// The parts of these lanes, where nothing was made for any errand yet.
    pub(crate) fn of(
        ground: &Ground,
        lanes: &[Lane],
        ends: &Ends,
        errands: &Errands,
    ) -> Result<Parts, NoMemory> {
        let alloc = ground.alloc;
        let mut parts = Parts {
            entries: Vec::new(alloc),
            of_lanes: Vec::new(alloc),
            asked: vec![in alloc; 0u64; errands.count() as usize]?,
        };
        let mut own = LaneParts {
            spans: Vec::new(alloc),
            last: HashMap::new(alloc),
        };
        for lane in lanes {
            own.spans.clear();
            own.last.clear();
            parts.join_all(&mut own, ends, *lane, errands)?;
            parts.note_asked(alloc, own.spans.as_slice(), errands)?;
            let listed = by_nears(alloc, own.spans.as_slice())?;
            parts.of_lanes.push(listed)?;
        }
        Ok(parts)
    }

    /// All errands of the lane by when they began, near ones before far ones.
    fn join_all(
        &mut self,
        own: &mut LaneParts,
        ends: &Ends,
        lane: Lane,
        errands: &Errands,
    ) -> Result<(), NoMemory> {
        let fars = ends.fars.of(lane);
        let mut joined = 0usize;
        for near in ends.nears.of(lane) {
            let errand = errands.get(near.errand);
            let rest = fars.get(joined..).unwrap_or(&[]);
            let earlier = rest
                .iter()
                .take_while(|far| errands.get(far.errand).start() < errand.start());
            for far in earlier {
                self.join(own, far, true, errands)?;
                joined = joined.saturating_add(1);
            }
            self.join(own, near, false, errands)?;
        }
        for far in fars.get(joined..).unwrap_or(&[]) {
            self.join(own, far, true, errands)?;
        }
        Ok(())
    }

    /// The errand goes on with the last part of its request, or begins one.
    fn join(
        &mut self,
        own: &mut LaneParts,
        begun: &Begun,
        is_far: bool,
        errands: &Errands,
    ) -> Result<(), NoMemory> {
        let errand = errands.get(begun.errand);
        let at = number(self.entries.len());
        self.entries.push(Entry {
            errand: begun.errand,
            next: at,
            is_far,
        })?;
        let behind = number(own.spans.len());
        let last = own.last.entry(begun.wanted)?.or_insert(behind);
        match own.spans.get_mut(*last as usize) {
            Some(span) if errand.start() <= span.reach => {
                if let Some(before) = self.entries.get_mut(span.last as usize) {
                    before.next = at;
                }
                *span = span.with(at, is_far, errand.deadline());
            }
            _ => {
                *last = behind;
                let span = Span {
                    first: at,
                    ..Span::default()
                };
                own.spans.push(span.with(at, is_far, errand.deadline()))?;
            }
        }
        Ok(())
    }

    /// Notes of the far errands of these parts when somebody first asked: one was made for one that
    /// had not ended when it did.
    fn note_asked(
        &mut self,
        alloc: Global,
        spans: &[Span],
        errands: &Errands,
    ) -> Result<(), NoMemory> {
        let mut reaches = Vec::new(alloc);
        for span in spans {
            if span.fars > 0 {
                self.list_reaches(span, errands, &mut reaches)?;
                self.note_part(span, errands, reaches.as_slice());
            }
        }
        Ok(())
    }

    fn list_reaches(
        &self,
        span: &Span,
        errands: &Errands,
        reaches: &mut Vec<Reach>,
    ) -> Result<(), NoMemory> {
        reaches.clear();
        let mut reach = 0u64;
        let mut entry = self.at(span.first);
        for _ in 0..span.count() {
            if !entry.is_far {
                let near = errands.get(entry.errand);
                reach = reach.max(near.deadline());
                let start = near.start();
                reaches.push(Reach { start, reach })?;
            }
            entry = self.at(entry.next);
        }
        Ok(())
    }

    fn note_part(&mut self, span: &Span, errands: &Errands, reaches: &[Reach]) {
        let mut entry = self.at(span.first);
        for _ in 0..span.count() {
            if entry.is_far {
                let far = errands.get(entry.errand);
                let ended = far.ended().map_or(NO_TIME, |_line| far.release());
                let at = reaches.partition_point(|near| near.reach < ended);
                if let Some(asked) = self.asked.get_mut(entry.errand as usize) {
                    *asked = reaches.get(at).map_or(NO_TIME, |near| near.start);
                }
            }
            entry = self.at(entry.next);
        }
    }

    /// The errand that stands there.
    pub(crate) fn at(&self, place: u32) -> Entry {
        let entry = self.entries.get(place as usize);
        entry.copied().unwrap_or_default()
    }

    /// The far errand and the near one of a part of two, and the first of them.
    pub(crate) fn only_two(&self, span: &Span) -> Option<(u32, u32, u32)> {
        if span.nears != 1 || span.fars != 1 {
            return None;
        }
        let (first, last) = (self.at(span.first), self.at(span.last));
        if first.is_far {
            Some((first.errand, last.errand, first.errand))
        } else {
            Some((last.errand, first.errand, first.errand))
        }
    }

    /// The parts of the lane of this rank.
    pub(crate) fn of_lane(&self, rank: u32) -> &[Span] {
        match self.of_lanes.get(rank as usize) {
            Some(spans) => spans.as_slice(),
            None => &[],
        }
    }
}

/// Those that have far errands: those with few near ones first, as they began.
fn by_nears(alloc: Global, spans: &[Span]) -> Result<Vec<Span>, NoMemory> {
    let mut listed = Vec::new(alloc);
    let mut several = Vec::new(alloc);
    for span in spans {
        if span.fars > 0 {
            let list = if span.nears > 1 {
                &mut several
            } else {
                &mut listed
            };
            list.push(*span)?;
        }
    }
    several.sort_by_key(|span: &Span| span.nears)?;
    listed.extend_from_slice(several.as_slice())?;
    Ok(listed)
}

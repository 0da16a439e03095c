ghost use Rattle.std.specs.Prelude.{◌+◌, ◌*◌, ◌%◌, ◌^◌};
ghost use Rattle.std.specs.Hash as fed;
ghost use Rattle.std.specs.Cmp.Rules.{hashing};
ghost use Rattle.std.proofs.Common.{rules};

use crate::ground::{Ground, NO_TIME, number};
use crate::streams::MOST_LANES;
use observe_told::{Ending, MaybeOp, MaybePlace, Seen, Who, bump};
use pci_command::{NoMemory, OpId};
use std::collections::HashMap;
use std::collections::hash_map::Entry;
use std::hash::{Hash, Hasher};

/// All that one request of one initiator did on a bus: some Retries, and at most one end. An
/// initiator that has no data must ask again for the same.
#[derive(Clone, Copy)]
pub(crate) struct Errand {
    kept: Kept,
    /// Behind the last of its lines among those of all errands.
    end: u32,
}

/// What is kept of an errand, of which there are many. Its lines end where those of the next begin.
#[derive(Clone, Copy)]
struct Kept {
    start: u64,
    deadline: u64,
    release: u64,
    /// Its first line among those of all errands. While lines are sorted, how many it has.
    first: u32,
    ended: MaybePlace,
    shown: MaybePlace,
    near: MaybePlace,
    before: MaybePlace,
    latch: MaybePlace,
    last_far: MaybePlace,
    op: MaybeOp,
}

/// All errands, by their first lines.
#[derive(Drop)]
pub(crate) struct Errands {
    all: Vec<Kept>,
    lines: Vec<u32>,
    of_lines: Vec<MaybePlace>,
}

/// A request as two errands of one request have it: its plain command, its address (in
/// configuration space of type 1) and of a write its word.
#[derive(Clone, Copy, Default, PartialEq, Eq)]
pub(crate) struct Wanted {
    pub(crate) address: u64,
    pub(crate) value: u32,
    pub(crate) code: u8,
    pub(crate) enables: u8,
}

/// Few requests are equal in address and word alone, and what writes a word has a short address.
impl Hash for Wanted {
    ghost hash_input = { λ a. fed.u64 ((a.address + 2 ^ 32 * a.value) % 2 ^ 64) };

    ghost respects_eq = { Prim.search (hashing, rules) };

    fn hash<H: Hasher>(&self, state: &mut H) {
        let word = 0x1_0000_0000 * u64::from(self.value);
        state.write_u64(self.address.wrapping_add(word));
    }
}

/// By what a line is known as one of an errand: what is asked for, where, and by whom.
#[derive(Clone, Copy, PartialEq, Eq)]
struct Asked {
    wanted: Wanted,
    bus: u8,
    who: Who,
}

/// Few who ask on one bus ask for the same, so who asks is not written.
impl Hash for Asked {
    ghost hash_input = { λ a.
        fed.u64 ((a.wanted.address + 2 ^ 32 * a.wanted.value + 2 ^ 32 * a.bus) % 2 ^ 64) };

    ghost respects_eq = { Prim.search (hashing, rules) };

    fn hash<H: Hasher>(&self, state: &mut H) {
        let Wanted { address, value, .. } = self.wanted;
        let asked = address.wrapping_add(0x1_0000_0000 * u64::from(value));
        state.write_u64(asked.wrapping_add(0x1_0000_0000 * u64::from(self.bus)));
    }
}

impl Kept {
    /// No line yet.
    const NEW: Kept = Kept {
        start: 0,
        deadline: NO_TIME,
        release: 0,
        first: 0,
        ended: MaybePlace::NONE,
        shown: MaybePlace::NONE,
        near: MaybePlace::NONE,
        before: MaybePlace::NONE,
        latch: MaybePlace::NONE,
        last_far: MaybePlace::NONE,
        op: MaybeOp::NONE,
    };
}

impl Errand {
    /// One of no line.
    pub(crate) const NONE: Errand = Errand {
        kept: Kept::NEW,
        end: 0,
    };

    /// When it began.
    pub(crate) fn start(&self) -> u64 {
        self.kept.start
    }

    /// The line that ended it.
    pub(crate) fn ended(&self) -> Option<u32> {
        self.kept.ended.get()
    }

    /// How long it was open: one that did not end is open for ever.
    pub(crate) fn open_until(&self, ground: &Ground) -> u64 {
        self.ended().map_or(NO_TIME, |line| ground.end(line))
    }

    /// The line at which it first had an effect: its first latch, or its end.
    pub(crate) fn shown(&self) -> Option<u32> {
        self.kept.shown.get()
    }

    /// By when that was, seen by all that had to wait for it.
    pub(crate) fn deadline(&self) -> u64 {
        self.kept.deadline
    }

    /// From when on it can have ended, seen by all that it had to wait for.
    pub(crate) fn release(&self) -> u64 {
        self.kept.release
    }

    /// Of one that a lane drives: the errand that the lane claimed and for which this was made.
    pub(crate) fn near(&self) -> Option<u32> {
        self.kept.near.get()
    }

    /// The one that was made for that before.
    pub(crate) fn before(&self) -> Option<u32> {
        self.kept.before.get()
    }

    /// The line that latched it.
    pub(crate) fn latch(&self) -> Option<u32> {
        self.kept.latch.get()
    }

    /// Of one that a lane claims: the last that was made for it.
    pub(crate) fn last_far(&self) -> Option<u32> {
        self.kept.last_far.get()
    }
}

impl Errands {
    /// The errands of a log.
    pub(crate) fn of(ground: &Ground) -> Result<Errands, NoMemory> {
        let mut errands = Errands {
            all: Vec::new(ground.alloc),
            lines: Vec::new(ground.alloc),
            of_lines: Vec::new(ground.alloc),
        };
        errands.of_lines.reserve(ground.lines.len())?;
        let mut open = HashMap::new(ground.alloc);
        errands.sort_lines(ground, &mut open)?;
        let mut next = Vec::new(ground.alloc);
        errands.count_lines(&mut next)?;
        errands.list_lines(&mut next);
        Ok(errands)
    }

    fn sort_lines(
        &mut self,
        ground: &Ground,
        open: &mut HashMap<Asked, u32>,
    ) -> Result<(), NoMemory> {
        for (line, seen) in ground.lines.iter().enumerate() {
            let errand = self.sort_in(ground, open, number(line), seen)?;
            self.of_lines.push(errand)?;
        }
        Ok(())
    }

    /// The errand of the line, which none is that is posted.
    fn sort_in(
        &mut self,
        ground: &Ground,
        open: &mut HashMap<Asked, u32>,
        line: u32,
        seen: &Seen,
    ) -> Result<MaybePlace, NoMemory> {
        if seen.is_posted() {
            return Ok(MaybePlace::NONE);
        }
        let ends = seen.ending != Ending::Retry;
        let errand = match open.entry(key_of(ground, seen))? {
            Entry::Occupied(entry) => {
                let errand = *entry.get();
                if ends {
                    entry.remove();
                }
                errand
            }
            Entry::Vacant(entry) => {
                let errand = self.begin(seen.start)?;
                if !ends {
                    entry.insert(errand);
                }
                errand
            }
        };
        self.lengthen(errand, line, seen);
        Ok(MaybePlace::some(errand))
    }

    fn begin(&mut self, start: u64) -> Result<u32, NoMemory> {
        let errand = number(self.all.len());
        self.all.push(Kept { start, ..Kept::NEW })?;
        Ok(errand)
    }

    /// The line is the last of the errand so far.
    fn lengthen(&mut self, errand: u32, line: u32, seen: &Seen) {
        if let Some(errand) = self.all.get_mut(errand as usize) {
            errand.first = errand.first.saturating_add(1);
            if seen.ending != Ending::Retry {
                errand.ended = MaybePlace::some(line);
                errand.shown = MaybePlace::some(line);
                errand.deadline = seen.end;
                errand.release = seen.start;
            }
        }
    }

    /// Of each errand where its lines begin, and room for all of them.
    fn count_lines(&mut self, next: &mut Vec<u32>) -> Result<(), NoMemory> {
        let mut total = 0u32;
        for errand in self.all.iter_mut() {
            let count = errand.first;
            errand.first = total;
            next.push(total)?;
            total = total.saturating_add(count);
        }
        self.lines.resize(total as usize, 0)?;
        Ok(())
    }

    /// The lines errand by errand.
    fn list_lines(&mut self, next: &mut Vec<u32>) {
        for (line, errand) in self.of_lines.iter().enumerate() {
            if let Some(errand) = errand.get() {
                let slot = bump(next, errand as usize);
                if let Some(slot) = self.lines.get_mut(slot as usize) {
                    *slot = number(line);
                }
            }
        }
    }

    /// How many there are: they are numbered from 0.
    pub(crate) fn count(&self) -> u32 {
        number(self.all.len())
    }

    /// The errand of this number.
    pub(crate) fn get(&self, errand: u32) -> Errand {
        match self.all.get(errand as usize) {
            Some(kept) => Errand {
                kept: *kept,
                end: self.end_of(errand),
            },
            None => Errand::NONE,
        }
    }

    /// Where its lines end among those of all errands.
    fn end_of(&self, errand: u32) -> u32 {
        let behind = (errand as usize).saturating_add(1);
        match self.all.get(behind) {
            Some(next) => next.first,
            None => number(self.lines.len()),
        }
    }

    /// The number of the errand that the line is of.
    pub(crate) fn of_line(&self, line: u32) -> Option<u32> {
        self.of_lines.get(line as usize)?.get()
    }

    /// The lines of an errand, in the order of its bus: one at least.
    pub(crate) fn lines_of(&self, errand: &Errand) -> &[u32] {
        let lines = self.lines.as_slice();
        lines
            .get(errand.kept.first as usize..errand.end as usize)
            .unwrap_or(&[])
    }

    /// Its first line.
    pub(crate) fn first_line(&self, errand: &Errand) -> u32 {
        let first = self.lines.get(errand.kept.first as usize);
        first.copied().unwrap_or(0)
    }

    /// Whose operation it is: that of a far errand is that of the near one.
    pub(crate) fn op_of(&self, errand: u32) -> Option<OpId> {
        let mut kept = self.all.get(errand as usize)?;
        for _ in 0..MOST_LANES {
            if let Some(op) = kept.op.get() {
                return Some(op);
            }
            kept = self.all.get(kept.near.get()? as usize)?;
        }
        None
    }

    /// The errand is of this operation.
    pub(crate) fn name(&mut self, errand: u32, op: OpId) {
        if let Some(errand) = self.all.get_mut(errand as usize) {
            errand.op = MaybeOp::some(op);
        }
    }

    /// This line latched it.
    pub(crate) fn latch(&mut self, errand: u32, line: u32) {
        if let Some(errand) = self.all.get_mut(errand as usize) {
            errand.latch = MaybePlace::some(line);
        }
    }

    /// It first had an effect at this line, by this time.
    pub(crate) fn show(&mut self, errand: u32, line: u32, deadline: u64) {
        if let Some(errand) = self.all.get_mut(errand as usize) {
            errand.shown = MaybePlace::some(line);
            errand.deadline = deadline;
        }
    }

    /// It can have ended from this time on.
    pub(crate) fn release(&mut self, errand: u32, release: u64) {
        if let Some(errand) = self.all.get_mut(errand as usize) {
            errand.release = release;
        }
    }

    /// The far errand was made for the near one, last of all so far.
    pub(crate) fn give(&mut self, far: u32, near: u32) {
        let before = match self.all.get(near as usize) {
            Some(near) => near.last_far,
            None => MaybePlace::NONE,
        };
        if let Some(far) = self.all.get_mut(far as usize) {
            far.near = MaybePlace::some(near);
            far.before = before;
        }
        if let Some(near) = self.all.get_mut(near as usize) {
            near.last_far = MaybePlace::some(far);
        }
    }

    /// Nothing was made for any, as before the pairing.
    pub(crate) fn part_all(&mut self, ground: &Ground) {
        for errand in self.all.iter_mut() {
            errand.near = MaybePlace::NONE;
            errand.before = MaybePlace::NONE;
            errand.latch = MaybePlace::NONE;
            errand.last_far = MaybePlace::NONE;
            errand.shown = errand.ended;
            let ended = errand.ended.get();
            errand.deadline = ended.map_or(NO_TIME, |line| ground.end(line));
            errand.release = ended.map_or(0, |line| ground.start(line));
        }
    }

    /// It was not: what was given last is taken back.
    pub(crate) fn take_back(&mut self, far: u32) {
        let Some(given) = self.all.get(far as usize).copied() else {
            return;
        };
        if let Some(near) = given.near.get() {
            if let Some(near) = self.all.get_mut(near as usize) {
                near.last_far = given.before;
            }
        }
        if let Some(far) = self.all.get_mut(far as usize) {
            far.near = MaybePlace::NONE;
            far.before = MaybePlace::NONE;
        }
    }
}

fn key_of(ground: &Ground, seen: &Seen) -> Asked {
    Asked {
        wanted: ground.driven(seen),
        bus: seen.bus,
        who: seen.who,
    }
}

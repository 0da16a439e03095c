use crate::errands::{Errand, Errands};
use crate::ground::{Ground, NO_PLACE};
use crate::latches::{Sides, Strictness};
use crate::slots::Held;
use observe_told::Unfound;
use pci_command::NoMemory;
use std::alloc::Global;
use std::mem::replace;

/// How many steps the trying of pairings takes at most, beside one for each errand; and where others
/// are tried otherwise than usual.
const MOST_STEPS: usize = 20_000;

const FEW_STEPS: usize = 1_000;

/// In which order the near errands that a far one may have been made for are tried.
#[derive(Clone, Copy, Default, PartialEq, Eq)]
pub(crate) enum Trying {
    /// One for which nothing was made yet before one for which something was; one that ended as the
    /// far one before another; the one that ends first; of those that never end the one that may be
    /// latched last.
    #[default]
    Usual,
    /// The same, but one for which something was made before what its initiator asked for later.
    Staying,
    /// One for which nothing was made yet before one for which something was; the one that began
    /// first.
    FirstBegun,
}

/// The place of a near errand in that order.
#[derive(Clone, Copy, PartialEq, Eq, PartialOrd, Ord)]
struct Rank {
    stage: u8,
    is_other: bool,
    until: u64,
    behind: u32,
    near: u32,
}

/// Stages of it: nothing was made for it yet; something was; it stands behind such a one.
const UNSERVED: u8 = 0;

const SERVED: u8 = 1;

const BEHIND: u8 = 2;

/// The near errands that are tried for a far one: those from a place of the queue on, the next of
/// them, and the place from which on a latch may stand.
#[derive(Clone, Copy)]
struct Level {
    from: usize,
    next: usize,
    floor: u32,
}

/// The errands of one request that are open together, and the trying of who was made for whom.
#[derive(Drop)]
pub(crate) struct Trial<'a> {
    pub(crate) sides: Sides<'a>,
    trying: Trying,
    /// The far ones, in the order in which they were shown.
    fars: &'a [u32],
    /// The near ones, by when they began.
    nears: &'a [u32],
    lists: &'a mut Lists,
}

/// What a trial goes by, in lists that the next one takes over.
#[derive(Drop)]
pub(crate) struct Lists {
    /// The near ones that never ended, and those that did, these with when the last of them so far
    /// ended, and by when they ended.
    endless: Vec<u32>,
    ended: Vec<u32>,
    reaches: Vec<u64>,
    by_end: Vec<u32>,
    queue: Vec<u32>,
    levels: Vec<Level>,
    ranks: Vec<Rank>,
}

impl Lists {
    pub(crate) fn new(alloc: Global) -> Lists {
        Lists {
            endless: Vec::new(alloc),
            ended: Vec::new(alloc),
            reaches: Vec::new(alloc),
            by_end: Vec::new(alloc),
            queue: Vec::new(alloc),
            levels: Vec::new(alloc),
            ranks: Vec::new(alloc),
        }
    }

    fn clear(&mut self) {
        self.endless.clear();
        self.ended.clear();
        self.reaches.clear();
        self.by_end.clear();
        self.queue.clear();
        self.levels.clear();
        self.ranks.clear();
    }

    fn sort_in(
        &mut self,
        ground: &Ground,
        errands: &Errands,
        nears: &[u32],
    ) -> Result<(), NoMemory> {
        let mut reach = 0u64;
        for near in nears {
            let errand = errands.get(*near);
            let until = errand.open_until(ground);
            if errand.ended().is_some() {
                reach = reach.max(until);
                self.ended.push(*near)?;
                self.reaches.push(reach)?;
                self.by_end.push(*near)?;
            } else {
                self.endless.push(*near)?;
            }
        }
        self.by_end
            .sort_unstable_by_key(|near| errands.get(*near).open_until(ground));
        Ok(())
    }

    /// Lists the near errands that may be tried for the far one, behind the queue.
    fn list_nears(
        &mut self,
        sides: &Sides,
        errands: &Errands,
        far: &Errand,
        asked: (Strictness, u32),
    ) -> Result<(), NoMemory> {
        let ground = sides.ground;
        let start = far.start();
        let first = self
            .reaches
            .as_slice()
            .partition_point(|reach| *reach < start);
        for near in self.ended.iter().skip(first) {
            if errands.get(*near).start() > far.deadline() {
                break;
            }
            if sides.may_be_for(errands, far, *near, asked) {
                self.queue.push(*near)?;
            }
        }
        for near in &self.endless {
            if sides.may_be_for(errands, far, *near, asked) {
                self.queue.push(*near)?;
            }
        }
        Ok(())
    }
}

impl<'a> Trial<'a> {
    pub(crate) fn new(
        sides: Sides<'a>,
        trying: Trying,
        errands: &Errands,
        part: (&'a [u32], &'a [u32]),
        lists: &'a mut Lists,
    ) -> Result<Trial<'a>, NoMemory> {
        let (fars, nears) = part;
        lists.clear();
        lists.sort_in(sides.ground, errands, nears)?;
        Ok(Trial {
            sides,
            trying,
            fars,
            nears,
            lists,
        })
    }

    fn open_until(&self, errands: &Errands, near: u32) -> u64 {
        errands.get(near).open_until(self.sides.ground)
    }

    /// The first far errand for which nobody was asking.
    pub(crate) fn unasked(&mut self, errands: &Errands) -> Result<Option<u32>, NoMemory> {
        let fars = self.fars;
        for far in fars {
            self.lists.queue.clear();
            let far = errands.get(*far);
            self.list(errands, &far, Strictness::Loose, 0)?;
            if self.lists.queue.is_empty() {
                return Ok(far.shown());
            }
        }
        Ok(None)
    }

    /// The first choice, in the order of trying, that suffices: then it is made.
    pub(crate) fn run(
        &mut self,
        errands: &mut Errands,
        held: &mut Held,
        strictness: Strictness,
        is_brief: bool,
    ) -> Result<bool, Unfound> {
        let (sides, fars, nears) = (self.sides, self.fars, self.nears);
        self.lists.queue.clear();
        self.lists.levels.clear();
        self.open(errands, strictness, 0)?;
        let mut steps = 0usize;
        let most = if is_brief { FEW_STEPS } else { MOST_STEPS };
        let most = most.saturating_add(fars.len().saturating_mul(2));
        for _ in 0..most.saturating_mul(2) {
            let Some(far) = self.current() else {
                return Ok(false);
            };
            errands.take_back(far);
            let Some(near) = self.choose() else {
                continue;
            };
            errands.give(far, near);
            steps = steps.saturating_add(1);
            if self.lists.levels.len() < fars.len() {
                let floor = self.floor_behind(errands, far);
                self.open(errands, strictness, floor)?;
            } else if sides.settle(errands, held, fars, nears, strictness) {
                return Ok(true);
            } else {
                steps = steps.saturating_add(fars.len() / 64); // not a limit
            }
            if steps > most {
                break;
            }
        }
        Err(self.too_many(errands))
    }

    fn too_many(&self, errands: &Errands) -> Unfound {
        let line = self.fars.first().and_then(|far| errands.get(*far).shown());
        Unfound::TooManyPairings {
            line: line.unwrap_or(0),
        }
    }

    /// The far errand for which a near one is looked for.
    fn current(&self) -> Option<u32> {
        let at = self.lists.levels.len().checked_sub(1)?;
        self.fars.get(at).copied()
    }

    /// The next near errand that is tried for it; where there is none more, the one before is tried
    /// otherwise.
    fn choose(&mut self) -> Option<u32> {
        let level = self.lists.levels.last().copied()?;
        let near = self.lists.queue.get(level.next).copied();
        if near.is_some() {
            self.pass_on();
        } else {
            self.lists.queue.truncate(level.from);
            self.lists.levels.pop();
        }
        near
    }

    /// What is tried next for the last far errand is the one behind.
    fn pass_on(&mut self) {
        if let Some(level) = self.lists.levels.as_mut_slice().last_mut() {
            level.next = level.next.saturating_add(1);
        }
    }

    /// The next far errand, with the near ones that may be tried for it.
    fn open(
        &mut self,
        errands: &Errands,
        strictness: Strictness,
        floor: u32,
    ) -> Result<(), NoMemory> {
        let from = self.lists.queue.len();
        let at = self.lists.levels.len();
        if let Some(far) = self.fars.get(at).copied() {
            let far = errands.get(far);
            if strictness == Strictness::Loose || self.can_go_on(errands, at) {
                self.list(errands, &far, strictness, floor)?;
            }
        }
        self.lists.levels.push(Level {
            from,
            next: from,
            floor,
        })?;
        Ok(())
    }

    /// From which place on the latch of the next far errand may stand: behind the first that this
    /// one may have.
    fn floor_behind(&self, errands: &Errands, far: u32) -> u32 {
        let floor = self.lists.levels.last().map_or(0, |level| level.floor);
        let far = errands.get(far);
        let Some(near) = far.near() else {
            return floor;
        };
        let near = errands.get(near);
        let low = floor.max(self.sides.low_place(errands, &near, far.before()));
        match self.sides.first_line(errands, &near, low) {
            Some(line) => self.sides.ground.place(line).saturating_add(1),
            None => floor,
        }
    }

    /// Whether each near errand that ended before this far one did was served.
    fn can_go_on(&self, errands: &Errands, at: usize) -> bool {
        let from = match at.checked_sub(1) {
            Some(before) => self.ended_before(errands, before),
            None => 0,
        };
        let to = self.ended_before(errands, at);
        let between = self.lists.by_end.get(from..to).unwrap_or(&[]);
        between
            .iter()
            .all(|near| errands.get(*near).last_far().is_some())
    }

    /// How many near errands ended before the far one began to end.
    fn ended_before(&self, errands: &Errands, at: usize) -> usize {
        let ended = self.fars.get(at).and_then(|far| errands.get(*far).ended());
        match ended {
            Some(line) => {
                let time = self.sides.ground.start(line);
                self.lists
                    .by_end
                    .as_slice()
                    .partition_point(|near| self.open_until(errands, *near) < time)
            }
            None => 0,
        }
    }

    /// The near errands that the far one may have been made for, in the order of trying, behind the
    /// queue.
    fn list(
        &mut self,
        errands: &Errands,
        far: &Errand,
        strictness: Strictness,
        floor: u32,
    ) -> Result<(), NoMemory> {
        let from = self.lists.queue.len();
        self.lists
            .list_nears(&self.sides, errands, far, (strictness, floor))?;
        if self.lists.queue.len().saturating_sub(from) > 1 {
            self.sort_nears(errands, far, from)?;
        }
        Ok(())
    }

    /// Brings those from this place of the queue on into the order of trying.
    fn sort_nears(&mut self, errands: &Errands, far: &Errand, from: usize) -> Result<(), NoMemory> {
        let mut ranks = replace(&mut self.lists.ranks, Vec::new(self.sides.ground.alloc));
        ranks.clear();
        for at in from..self.lists.queue.len() {
            if let Some(near) = self.lists.queue.get(at).copied() {
                ranks.push(self.rank(errands, far, near))?;
            }
        }
        if self.trying == Trying::Staying {
            self.put_behind(errands, &mut ranks)?;
        }
        ranks.sort_unstable();
        self.lists.queue.truncate(from);
        for rank in &ranks {
            self.lists.queue.push(rank.near)?;
        }
        self.lists.ranks = ranks;
        Ok(())
    }

    /// Those for which nothing was made yet stand behind all others where something was made for
    /// what their initiator asked for before.
    fn put_behind(&self, errands: &Errands, ranks: &mut Vec<Rank>) -> Result<(), NoMemory> {
        let served = self.served(ranks.as_slice())?;
        for rank in ranks.iter_mut() {
            let near = rank.near;
            let is_behind = served
                .iter()
                .any(|before| self.is_before(errands, *before, near));
            if rank.stage == UNSERVED && is_behind {
                rank.stage = BEHIND;
            }
        }
        Ok(())
    }

    /// Those for which something was made.
    fn served(&self, ranks: &[Rank]) -> Result<Vec<u32>, NoMemory> {
        let mut served = Vec::new(self.sides.ground.alloc);
        for rank in ranks {
            if rank.stage == SERVED {
                served.push(rank.near)?;
            }
        }
        Ok(served)
    }

    /// Whether both are of one initiator, and this one began before the other.
    fn is_before(&self, errands: &Errands, before: u32, near: u32) -> bool {
        let ground = self.sides.ground;
        let (before, near) = (errands.get(before), errands.get(near));
        let first = ground.seen(errands.first_line(&before));
        let other = ground.seen(errands.first_line(&near));
        match (first, other) {
            (Some(first), Some(other)) => first.who == other.who && first.start < other.start,
            _ => false,
        }
    }

    fn rank(&self, errands: &Errands, far: &Errand, near: u32) -> Rank {
        let errand = errands.get(near);
        let stage = if errand.last_far().is_some() {
            SERVED
        } else {
            UNSERVED
        };
        if self.trying == Trying::FirstBegun {
            let until = errand.start();
            return Rank {
                stage,
                is_other: false,
                until,
                behind: 0,
                near,
            };
        }
        self.rank_by_end(errands, far, near, stage)
    }

    fn rank_by_end(&self, errands: &Errands, far: &Errand, near: u32, stage: u8) -> Rank {
        let sides = &self.sides;
        let errand = errands.get(near);
        let is_other = match (far.ended(), errand.ended()) {
            (Some(made), Some(taken)) => !sides.same_outcome(made, taken),
            _ => true,
        };
        let high = sides.high_place(far);
        let latest = sides.last_line(errands, &errand, high, far.deadline());
        let place = latest.map_or(0, |line| sides.ground.place(line));
        Rank {
            stage,
            is_other,
            until: self.open_until(errands, near),
            behind: NO_PLACE - place,
            near,
        }
    }
}

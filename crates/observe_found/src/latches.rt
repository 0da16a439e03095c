use crate::errands::{Errand, Errands};
use crate::ground::{Ground, NO_PLACE, Times};
use crate::slots::Held;
use crate::streams::Stream;
use observe_told::{Ending, Seen};
use pci_command::Outcome;

/// A lane with what is needed to say which line latched a request there: its stream, and that of
/// the way back.
#[derive(Clone, Copy)]
pub(crate) struct Sides<'a> {
    pub(crate) ground: &'a Ground<'a>,
    pub(crate) stream: &'a Stream,
    pub(crate) back: &'a Stream,
    /// Of each errand of a lane from when on somebody was asking for it, where this is looked at.
    pub(crate) asked: &'a [u64],
    /// The master abort mode of the bridge.
    pub(crate) mode: bool,
}

/// How much of a choice is asked for.
#[derive(Clone, Copy, PartialEq, Eq)]
pub(crate) enum Strictness {
    /// All is as the machine has it.
    Whole,
    /// The same, but a read's completion may have gone before a posted write.
    NoOrderBack,
    /// Only that somebody was asking.
    Loose,
}

impl Sides<'_> {
    /// Whether somebody can have been asking by this time for what the near errand asks for.
    fn was_asked(&self, near: u32, time: u64) -> bool {
        let asked = self.asked.get(near as usize);
        asked.is_none_or(|asked| *asked <= time)
    }

    /// Whether the near errand may be tried for the far one, with a latch from this place on.
    pub(crate) fn may_be_for(
        &self,
        errands: &Errands,
        far: &Errand,
        near: u32,
        asked: (Strictness, u32),
    ) -> bool {
        let (strictness, floor) = asked;
        let errand = errands.get(near);
        self.was_open(far, &errand)
            && (strictness == Strictness::Loose || self.serves(errands, far, &errand, floor))
            && self.was_asked(near, far.deadline())
    }

    /// Whether the near errand was open at some time of the far one.
    fn was_open(&self, far: &Errand, near: &Errand) -> bool {
        near.start() <= far.deadline() && far.start() <= near.open_until(self.ground)
    }

    /// Whether the far errand can have been made for the near one, with a latch from this place on.
    fn serves(&self, errands: &Errands, far: &Errand, near: &Errand, floor: u32) -> bool {
        let ground = self.ground;
        if !self.may_serve(errands, far, near) {
            return false;
        }
        let low = floor.max(self.low_place(errands, near, near.last_far()));
        match self.first_line(errands, near, low) {
            Some(line) => {
                ground.place(line) < self.high_place(far) && ground.start(line) <= far.deadline()
            }
            None => false,
        }
    }

    /// Whether it can have been made for it, if there is a latch: it came in time, and what was
    /// made for it before was done.
    fn may_serve(&self, errands: &Errands, far: &Errand, near: &Errand) -> bool {
        let in_time = match (near.ended(), far.ended()) {
            (None, _) => true,
            (Some(_), None) => false,
            (Some(taken), Some(_made)) => far.release() <= self.ground.end(taken),
        };
        in_time
            && match near.last_far() {
                Some(before) => errands.get(before).ended().is_some(),
                None => true,
            }
    }

    /// Makes the far errand for the only near one that there is, if all is as the machine has it:
    /// then it is settled. What a trial asks beside this is so then: there is a latch from the first
    /// place on, and the near one, if it ended, did not end before the far one did.
    pub(crate) fn pair_alone(
        &self,
        errands: &mut Errands,
        held: &mut Held,
        far: u32,
        near: u32,
    ) -> bool {
        let (made, asked) = (errands.get(far), errands.get(near));
        let may_be = made.shown().is_some()
            && self.was_open(&made, &asked)
            && self.may_serve(errands, &made, &asked)
            && self.was_asked(near, made.deadline());
        if !may_be {
            return false;
        }
        errands.give(far, near);
        let is_settled = self.settle(errands, held, &[far], &[near], Strictness::Whole);
        if !is_settled {
            errands.take_back(far);
        }
        is_settled
    }

    /// The place from which on a latch for it may stand, where this far errand was made for the
    /// near one before: behind its end, since its completion was discarded.
    pub(crate) fn low_place(&self, errands: &Errands, near: &Errand, before: Option<u32>) -> u32 {
        let Some(before) = before.map(|before| errands.get(before)) else {
            return 0;
        };
        match (before.ended(), self.ground.seen(errands.first_line(near))) {
            (Some(_ended), Some(seen)) => self.ground.first_behind(seen.bus, before.release()),
            _ => 0,
        }
    }

    /// The place before which its latch stands: that of the first posted write that had not left.
    pub(crate) fn high_place(&self, far: &Errand) -> u32 {
        self.stream
            .place_of(self.left_before(far))
            .unwrap_or(NO_PLACE)
    }

    fn left_before(&self, far: &Errand) -> u32 {
        match far.shown() {
            Some(line) => self.stream.left_before(self.ground.place(line)),
            None => 0,
        }
    }

    /// The first line of the near errand at this place or behind it.
    pub(crate) fn first_line(&self, errands: &Errands, near: &Errand, place: u32) -> Option<u32> {
        let lines = errands.lines_of(near);
        let at = lines.partition_point(|line| self.ground.place(*line) < place);
        lines.get(at).copied()
    }

    /// The last line of the near errand before this place that began by this time.
    pub(crate) fn last_line(
        &self,
        errands: &Errands,
        near: &Errand,
        below: u32,
        time: u64,
    ) -> Option<u32> {
        let ground = self.ground;
        let lines = errands.lines_of(near);
        let count = lines.partition_point(|line| ground.place(*line) < below
            && ground.start(*line) <= time);
        lines.get(count.checked_sub(1)?).copied()
    }

    /// The latest latches of these far errands, which stand in the order in which they were shown,
    /// if they suffice: then they are noted down, and their slots are held.
    pub(crate) fn settle(
        &self,
        errands: &mut Errands,
        held: &mut Held,
        fars: &[u32],
        nears: &[u32],
        strictness: Strictness,
    ) -> bool {
        if !self.latch_all(errands, fars, strictness) {
            return false;
        }
        let is_loose = strictness == Strictness::Loose;
        if !is_loose && !self.suffices(errands, nears, strictness) {
            return false;
        }
        if !held.hold(self.ground, errands, fars) && !is_loose {
            held.free(self.ground, errands, fars);
            return false;
        }
        for far in fars {
            self.note_shown(errands, *far);
        }
        for near in nears {
            note_release(errands, *near);
        }
        true
    }

    /// Whether each has a latch. They are noted down from the last one on, up to one that has none.
    fn latch_all(&self, errands: &mut Errands, fars: &[u32], strictness: Strictness) -> bool {
        let mut bound = NO_PLACE;
        for far in fars.iter().rev() {
            let given = errands.get(*far);
            let Some(latch) = self.latch_below(errands, &given, bound, strictness) else {
                return false;
            };
            errands.latch(*far, latch);
            bound = self.ground.place(latch);
        }
        true
    }

    fn latch_below(
        &self,
        errands: &Errands,
        far: &Errand,
        bound: u32,
        strictness: Strictness,
    ) -> Option<u32> {
        let near = errands.get(far.near()?);
        let low = self.low_place(errands, &near, far.before());
        let high = bound.min(self.high_place(far));
        match self.last_in_time(errands, &near, (low, high), far.deadline()) {
            Some(line) if low <= self.ground.place(line) => Some(line),
            _ if strictness != Strictness::Loose => None,
            _ => Some(self.latch_behind_writes(errands, far, &near, low, bound)),
        }
    }

    /// The last line before a place that began by this time; where times are kept apart, one that
    /// began before it, if there is one from the other place on.
    fn last_in_time(
        &self,
        errands: &Errands,
        near: &Errand,
        between: (u32, u32),
        time: u64,
    ) -> Option<u32> {
        let (low, high) = between;
        let earlier = match self.ground.times {
            Times::Meet => None,
            Times::Apart => self.last_line(errands, near, high, time.saturating_sub(1)),
        };
        match earlier {
            Some(line) if low <= self.ground.place(line) => Some(line),
            _ => self.last_line(errands, near, high, time),
        }
    }

    /// Where the request passed a posted write: the last line before which as few stand that had
    /// not left as before the first that may have latched it.
    fn latch_behind_writes(
        &self,
        errands: &Errands,
        far: &Errand,
        near: &Errand,
        low: u32,
        bound: u32,
    ) -> u32 {
        let last = self.last_line(errands, near, bound, far.deadline());
        let first = self.first_line(errands, near, low);
        let (first, last) = match (first, last) {
            (Some(first), Some(last)) if first <= last => (first, last),
            _ => {
                let first = errands.first_line(near);
                let last = self.last_line(errands, near, NO_PLACE, far.deadline());
                (first, last.unwrap_or(first))
            }
        };
        let least = self.left_before(far).max(self.brought_before(first));
        let lines = errands.lines_of(near);
        let count = lines.partition_point(|line| *line <= last
            && self.brought_before(*line) <= least);
        let found = count.checked_sub(1).and_then(|last| lines.get(last));
        found.copied().unwrap_or(first)
    }

    fn brought_before(&self, line: u32) -> u32 {
        self.stream.brought_before(self.ground.place(line))
    }

    /// A near errand first had an effect at its first latch.
    fn note_shown(&self, errands: &mut Errands, far: u32) {
        let given = errands.get(far);
        let (Some(near), Some(latch), None) = (given.near(), given.latch(), given.before()) else {
            return;
        };
        let deadline = self.ground.end(latch).min(given.deadline());
        errands.show(near, latch, deadline);
    }

    /// Whether each near errand that ended has the outcome of its last far one, which was not taken
    /// before a posted write that it stood behind.
    fn suffices(&self, errands: &Errands, nears: &[u32], strictness: Strictness) -> bool {
        nears.iter().all(|near| {
            let near = errands.get(*near);
            match (near.ended(), made_by(errands, &near)) {
                (None, _) => true,
                (Some(_), None) => false,
                (Some(ended), Some(made)) => {
                    self.same_outcome(made, ended)
                        && (strictness == Strictness::NoOrderBack || !self.was_behind(made, ended))
                }
            }
        })
    }

    /// Whether a read took the completion that this line made, when it ended, while a posted write
    /// that came before that was there.
    fn was_behind(&self, made: u32, ended: u32) -> bool {
        let ground = self.ground;
        if !ground
            .seen(ended)
            .is_some_and(|seen| seen.command.is_read())
        {
            return false;
        }
        let brought = self.back.brought_before(ground.place(made));
        self.back.left_before(ground.place(ended)) < brought
    }

    /// Whether the end of the near errand is that of the far one.
    pub(crate) fn same_outcome(&self, far: u32, near: u32) -> bool {
        match (self.ground.seen(far), self.ground.seen(near)) {
            (Some(far), Some(near)) => { self.made_outcome(far) == outcome(self.ground, near) }
            _ => false,
        }
    }

    /// What a bridge makes of how its request ended: where nobody claimed it by its master abort
    /// mode.
    fn made_outcome(&self, far: &Seen) -> Outcome {
        match outcome(self.ground, far) {
            Outcome::Nobody if self.mode => Outcome::Aborted,
            Outcome::Nobody if far.command.is_read() => Outcome::Value(u32::MAX),
            Outcome::Nobody => Outcome::Written,
            told => told,
        }
    }
}

/// The line of the far bus that made the completion of the near errand.
fn made_by(errands: &Errands, near: &Errand) -> Option<u32> {
    errands.get(near.last_far()?).ended()
}

/// A near errand cannot have ended before the completion that it took was there.
fn note_release(errands: &mut Errands, near: u32) {
    let given = errands.get(near);
    let (Some(_ended), Some(far)) = (given.ended(), given.last_far()) else {
        return;
    };
    let release = given.release().max(errands.get(far).release());
    errands.release(near, release);
}

/// How a delayed line ended: a read with its first data phase, whatever came behind it.
pub(crate) fn outcome(ground: &Ground, seen: &Seen) -> Outcome {
    if seen.command.is_read() && !ground.moved(seen).is_empty() {
        return Outcome::Value(ground.first_phase(seen).value);
    }
    match seen.ending {
        Ending::Done | Ending::Retry if seen.command.is_read() => {
            Outcome::Value(ground.first_phase(seen).value)
        }
        Ending::Done | Ending::Retry => Outcome::Written,
        Ending::TargetAbort => Outcome::Aborted,
        Ending::Nobody => Outcome::Nobody,
    }
}

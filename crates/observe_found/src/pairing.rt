use crate::choices::{Choices, PartOf};
use crate::errands::{Errands, Wanted};
use crate::ground::{Ground, number};
use crate::latches::{Sides, Strictness};
use crate::parts::{Parts, Span};
use crate::slots::Held;
use crate::streams::Streams;
use crate::trial::{Lists, Trial};
use board_model::{Lane, bridge_to};
use observe_told::Unfound;
use pci_command::NoMemory;

/// How often the pairing is tried at most, each time with other orders of trying: of many errands
/// less often, so that it is not done for more than so many in all.
const MOST_TIMES: usize = 64; // not a limit

const MOST_ERRANDS: usize = 2_000_000;

/// Errands of one request at one lane that are open together: behind them nothing of it is open.
#[derive(Drop)]
struct Part {
    of: PartOf,
    fars: Vec<u32>,
    nears: Vec<u32>,
}

/// What all lanes are paired by.
#[derive(Clone, Copy)]
struct Lanes<'a> {
    ground: &'a Ground<'a>,
    lanes: &'a [Lane],
    streams: &'a Streams,
    parts: &'a Parts,
    /// Whether a part that has no choice that suffices gets one that shows what is wrong.
    tells: bool,
}

/// For which near errand each far one was made, and which line latched it: lane by lane, in the
/// order of the lanes.
pub(crate) fn pair(
    ground: &Ground,
    lanes: &[Lane],
    streams: &Streams,
    parts: &Parts,
    errands: &mut Errands,
) -> Result<(), Unfound> {
    let mut all = Lanes {
        ground,
        lanes,
        streams,
        parts,
        tells: false,
    };
    let mut choices = Choices::new(ground.alloc);
    all.settle(errands, &mut choices)
}

impl Part {
    fn new(ground: &Ground) -> Part {
        Part {
            of: PartOf::default(),
            fars: Vec::new(ground.alloc),
            nears: Vec::new(ground.alloc),
        }
    }

    /// The part of a lane that stands there. Of far errands only such are of it as have an effect.
    fn fill(
        &mut self,
        ground: &Ground,
        rank: u32,
        (parts, span): (&Parts, &Span),
        errands: &Errands,
    ) -> Result<(), NoMemory> {
        self.fars.clear();
        self.nears.clear();
        let first = parts.at(span.first);
        let mut entry = first;
        for _ in 0..span.count() {
            if !entry.is_far {
                self.nears.push(entry.errand)?;
            } else if errands.get(entry.errand).shown().is_some() {
                self.fars.push(entry.errand)?;
            }
            entry = parts.at(entry.next);
        }
        let begun = errands.get(first.errand);
        let seen = ground.seen(errands.first_line(&begun));
        self.of = PartOf {
            rank,
            first: first.errand,
            wanted: seen.map_or(Wanted::default(), |seen| ground.wanted(seen)),
            start: begun.start(),
            reach: span.reach,
        };
        Ok(())
    }
}

impl Lanes<'_> {
    /// Pairs all lanes with other orders of trying until each part has a choice that suffices; where
    /// none of them does, once more so that it shows what is wrong.
    fn settle(&mut self, errands: &mut Errands, choices: &mut Choices) -> Result<(), Unfound> {
        let times = MOST_TIMES.min(1 + MOST_ERRANDS / self.parts.entries.len().max(1));
        for _ in 0..times {
            if self.pair(errands, choices)? {
                return Ok(());
            }
            errands.part_all(self.ground);
            if !choices.change()? {
                break;
            }
        }
        choices.restore()?;
        self.tells = true;
        self.pair(errands, choices)?;
        Ok(())
    }

    /// Whether each part has a choice that suffices, which then is made.
    fn pair(&self, errands: &mut Errands, choices: &mut Choices) -> Result<bool, Unfound> {
        choices.begin();
        for rank in 0..self.lanes.len() {
            if !self.pair_lane(number(rank), errands, choices)? {
                return Ok(false);
            }
        }
        Ok(true)
    }

    fn pair_lane(
        &self,
        rank: u32,
        errands: &mut Errands,
        choices: &mut Choices,
    ) -> Result<bool, Unfound> {
        let Some(sides) = self.sides(rank) else {
            return Ok(true);
        };
        let parts = self.parts;
        let mut held = Held::new(self.ground, sides.stream.lane)?;
        let mut part = Part::new(self.ground);
        let mut lists = Lists::new(self.ground.alloc);
        for span in parts.of_lane(rank) {
            if let Some((far, near, first)) = parts.only_two(span)
                && sides.pair_alone(errands, &mut held, far, near)
            {
                choices.mend(rank, first);
                continue;
            }
            part.fill(self.ground, rank, (parts, span), errands)?;
            if part.fars.is_empty() {
                continue;
            }
            sort_by_shown(self.ground, errands, &mut part.fars);
            let trying = choices.of(&part.of);
            let errands_of = (part.fars.as_slice(), part.nears.as_slice());
            let mut trial = Trial::new(sides, trying, errands, errands_of, &mut lists)?;
            if !self.try_part(&mut trial, &part, &mut held, errands, choices)? {
                return Ok(false);
            }
        }
        Ok(true)
    }

    fn sides(&self, rank: u32) -> Option<Sides<'_>> {
        let lane = self.lanes.get(rank as usize).copied()?;
        let back = Lane {
            up: !lane.up,
            ..lane
        };
        Some(Sides {
            ground: self.ground,
            stream: self.streams.of(lane)?,
            back: self.streams.of(back)?,
            asked: if self.tells {
                &[]
            } else {
                self.parts.asked.as_slice()
            },
            mode: bridge_to(self.ground.board, lane.bus).is_some_and(|bridge| bridge.mode),
        })
    }

    fn try_part(
        &self,
        trial: &mut Trial,
        part: &Part,
        held: &mut Held,
        errands: &mut Errands,
        choices: &mut Choices,
    ) -> Result<bool, Unfound> {
        let unasked = trial.unasked(errands)?;
        let may_fail = !self.tells && choices.are_changed();
        if unasked.is_none() && suffices(trial, errands, held, may_fail)? {
            choices.pass(part.of, part.nears.len())?;
            return Ok(true);
        }
        if !self.tells {
            choices.fail(part.of)?;
            return Ok(false);
        }
        if let Some(line) = unasked {
            let bridge = trial.sides.stream.lane.bus;
            return Err(Unfound::NotAsked { line, bridge });
        }
        if !trial.run(errands, held, Strictness::NoOrderBack, false)? {
            trial.run(errands, held, Strictness::Loose, false)?;
        }
        Ok(true)
    }
}

/// Whether the part has a choice that suffices; where too many would have to be tried it has none,
/// if others are tried otherwise.
fn suffices(
    trial: &mut Trial,
    errands: &mut Errands,
    held: &mut Held,
    may_fail: bool,
) -> Result<bool, Unfound> {
    match trial.run(errands, held, Strictness::Whole, may_fail) {
        Err(Unfound::TooManyPairings { .. }) if may_fail => Ok(false),
        found => found,
    }
}

/// Far errands in the order in which they were shown.
fn sort_by_shown(ground: &Ground, errands: &Errands, fars: &mut Vec<u32>) {
    fars.sort_unstable_by_key(|far| {
        let shown = errands.get(*far).shown();
        shown.map_or(0, |line| ground.place(line))
    });
}

use crate::errands::Errands;
use crate::ground::{Ends, Ground, number};
use crate::latches::outcome;
use crate::pairing::pair;
use crate::parts::Parts;
use crate::programs::Programs;
use crate::streams::Streams;
use board_model::{Lane, Place};
use history_model::Step;
use observe_told::{Ending, LineActs, MaybeOp, Seen, SeenAct, Unfound, Who};
use pci_command::{NoMemory, OpId};

/// What the acts are told by: errands, streams and programs of a log.
#[derive(Drop)]
pub(crate) struct Told<'a> {
    pub(crate) ground: &'a Ground<'a>,
    pub(crate) errands: Errands,
    pub(crate) streams: Streams,
    pub(crate) programs: Programs,
}

impl<'a> Told<'a> {
    /// Nothing yet but the errands.
    pub(crate) fn new(ground: &'a Ground<'a>, errands: Errands) -> Told<'a> {
        Told {
            ground,
            errands,
            streams: Streams::new(ground.alloc),
            programs: Programs::new(ground.alloc),
        }
    }

    /// All that the lines tell.
    pub(crate) fn follow(&mut self, lanes: &[Lane], ends: Ends) -> Result<(), Unfound> {
        let ground = self.ground;
        let parts = Parts::of(ground, lanes, &ends, &self.errands)?;
        drop(ends);
        self.streams.follow_all(ground, lanes)?;
        pair(ground, lanes, &self.streams, &parts, &mut self.errands)?;
        drop(parts);
        self.programs
            .write_all(ground, &mut self.streams, &mut self.errands)
    }
}

/// What is known of a line that ended an errand, or latched one: its operation, and which of both.
#[derive(Clone, Copy)]
struct Done {
    op: MaybeOp,
    is_latch: bool,
}

/// What acts are told by, once the errands are let go.
#[derive(Drop)]
pub(crate) struct Deeds<'a> {
    ground: &'a Ground<'a>,
    done: Vec<Done>,
    streams: &'a Streams,
    programs: &'a Programs,
}

impl<'a> Deeds<'a> {
    /// What the errands tell of each line.
    pub(crate) fn new(
        ground: &'a Ground<'a>,
        errands: Errands,
        streams: &'a Streams,
        programs: &'a Programs,
    ) -> Result<Deeds<'a>, NoMemory> {
        let done = done_by(ground, &errands)?;
        drop(errands);
        Ok(Deeds {
            ground,
            done,
            streams,
            programs,
        })
    }
}

/// Of each line that ended or latched an errand its operation, if it has one.
fn done_by(ground: &Ground, errands: &Errands) -> Result<Vec<Done>, NoMemory> {
    let nothing = Done {
        op: MaybeOp::NONE,
        is_latch: false,
    };
    let mut done = vec![in ground.alloc; nothing; ground.lines.len()]?;
    for number in 0..errands.count() {
        let errand = errands.get(number);
        let op = errands.op_of(number).map_or(MaybeOp::NONE, MaybeOp::some);
        if let Some(line) = errand.ended()
            && let Some(done) = done.get_mut(line as usize)
        {
            done.op = op;
        }
        if let Some(line) = errand.latch()
            && let Some(done) = done.get_mut(line as usize)
        {
            *done = Done { op, is_latch: true };
        }
    }
    Ok(done)
}

impl Deeds<'_> {
    /// The acts of all lines, of each bus in the order of its lines, and how many Retries have none.
    pub(crate) fn acts(&self) -> Result<(LineActs, u32), NoMemory> {
        let mut acts = LineActs::with_room(self.ground.alloc, self.ground.lines.len())?;
        let mut fruitless = 0u32;
        for (line, seen) in self.ground.lines.iter().enumerate() {
            let before = acts.count();
            self.act(number(line), seen, &mut acts)?;
            if seen.ending == Ending::Retry && acts.count() == before {
                fruitless = fruitless.saturating_add(1);
            }
        }
        Ok((acts, fruitless))
    }

    fn act(&self, line: u32, seen: &Seen, acts: &mut LineActs) -> Result<(), NoMemory> {
        if seen.is_posted() {
            return self.posted(line, seen, acts);
        }
        let done = self.done.get(line as usize);
        let Some(op) = done.and_then(|done| done.op.get()) else {
            return Ok(());
        };
        if done.is_some_and(|done| done.is_latch) {
            self.push(line, (op, Step::Latch), acts)?;
        }
        self.end(line, seen, op, acts)
    }

    fn push(&self, line: u32, act: (OpId, Step), acts: &mut LineActs) -> Result<(), NoMemory> {
        let (op, step) = act;
        let bus = self.ground.seen(line).map_or(0, |seen| seen.bus);
        let place = match step {
            Step::MasterAbort => Place::Nobody,
            _ => self.ground.claimant(line),
        };
        let act = SeenAct {
            line,
            op,
            step,
            place,
        };
        acts.push(bus, act)
    }

    /// How a delayed request ended.
    fn end(&self, line: u32, seen: &Seen, op: OpId, acts: &mut LineActs) -> Result<(), NoMemory> {
        match seen.ending {
            Ending::Retry => Ok(()),
            Ending::Nobody => self.push(line, (op, Step::MasterAbort), acts),
            _ if matches!(self.ground.claimant(line), Place::Lane(_)) => {
                let step = Step::Take(outcome(self.ground, seen));
                self.push(line, (op, step), acts)
            }
            _ if seen.command.is_read() => self.reads(line, seen, op, acts),
            Ending::Done => self.push(line, (op, Step::Land), acts),
            Ending::TargetAbort => self.push(line, (op, Step::TargetAbort), acts),
        }
    }

    /// A read that no lane claims: of a master an operation for each data phase, and one for the
    /// abort behind them; of a lane the first.
    fn reads(&self, line: u32, seen: &Seen, op: OpId, acts: &mut LineActs) -> Result<(), NoMemory> {
        let is_of_master = matches!(seen.who, Who::Master(_));
        let mut op = op;
        for (count, phase) in self.ground.moved(seen).iter().enumerate() {
            if count == 0 || is_of_master {
                self.push(line, (op, Step::Read(phase.value)), acts)?;
                op.index = op.index.saturating_add(1);
            }
        }
        let has_read = !self.ground.moved(seen).is_empty();
        if seen.ending == Ending::TargetAbort && (is_of_master || !has_read) {
            self.push(line, (op, Step::TargetAbort), acts)?;
        }
        Ok(())
    }

    fn posted(&self, line: u32, seen: &Seen, acts: &mut LineActs) -> Result<(), NoMemory> {
        let step = match self.ground.claimant(line) {
            Place::Lane(_) => Step::Accept,
            Place::Target(_) | Place::Header(_) | Place::Nobody => Step::Land,
        };
        let rest = match seen.ending {
            Ending::Retry => return Ok(()),
            Ending::Nobody => Step::MasterAbort,
            Ending::Done | Ending::TargetAbort => Step::TargetAbort,
        };
        let (first, end) = self.ground.span(line);
        self.push_ops(line, (first, end), step, acts)?;
        if let Some(lost) = self.streams.lost.get(&line).copied() {
            let end = lost.first.saturating_add(lost.count);
            self.push_ops(line, (lost.first, end), rest, acts)?;
        }
        match self.programs.alone.get(&line).copied() {
            Some(op) => self.push(line, (op, rest), acts),
            None => Ok(()),
        }
    }

    /// One act for each operation of these data phases.
    fn push_ops(
        &self,
        line: u32,
        span: (u32, u32),
        step: Step,
        acts: &mut LineActs,
    ) -> Result<(), NoMemory> {
        let mut before = None;
        for phase in span.0..span.1 {
            let op = self.streams.op_of(phase);
            if op != before
                && let Some(op) = op
            {
                self.push(line, (op, step), acts)?;
            }
            before = op;
        }
        Ok(())
    }
}

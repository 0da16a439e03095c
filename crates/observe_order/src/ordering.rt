ghost use Rattle.std.specs.Prelude.{IfOk, OnOk};
ghost use Rattle.observe_order.specs.Going.{HasLanded, EndsLanded};

use crate::blame::blamed;
use crate::going::{begun, try_act};
use crate::reasons::Past;
use board_tree::Tree;
use history_model::Event;
use judge_next::Course;
use observe_told::{ActsTold, Heads, LineActs, Refused, Seen, SeenAct, Woven};
use pci_command::{List, NoMemory};
use std::alloc::Global;

/// The run that the acts of a log make which are allowed, and of each of these acts the place of
/// its line in the log.
#[derive(Debug, Drop)]
pub struct Ordered {
    pub run: Woven,
    pub lines: Vec<u32>,
    /// Where one is refused: it stands behind those that were taken, and behind it all others, by
    /// when their lines began.
    pub stopped: Option<ActsTold>,
}

impl Ordered {
    /// The act that is refused, if one is.
    pub fn refused(&self) -> Option<Refused> {
        self.stopped.as_ref().and_then(|told| told.refused)
    }
}

/// The acts of a log, bus by bus, in an order that its times leave: each as soon as the machine
/// allows it, the bus whose line began first before the others. Acts of one bus stand in the order
/// of its lines, and those of a line that ended before another began come first. The time grows
/// with the number of acts, and that of the buses. What was taken is a run, with all arrivals as
/// early as can be.
pub fn order(
    alloc: Global,
    tree: &Tree,
    acts: LineActs,
    lines: &[Seen],
) -> Result<Ordered, NoMemory>
    ensures { IfOk result (λ ordered. EndsLanded tree.now ordered.run) }
{
    let mut run = Woven::with_room(alloc, tree.bound() as usize, acts.count())?;
    let mut heads = Heads::new(alloc, &acts, lines)?;
    let mut course = begun(alloc, tree)?;
    let lines = go_on(alloc, &mut course, &mut run, tree, &mut heads)?;
    let stopped = match heads.candidates() {
        [] => None,
        _ => stop(alloc, &course, &run, tree, &heads, lines.as_slice())?,
    };
    Ok(Ordered {
        run,
        lines,
        stopped,
    })
}

/// Acts are taken as long as one is allowed: the places of their lines. Whether one is goes by what
/// happened on its bus, so that one which is refused is not tried again before something does.
fn go_on(
    alloc: Global,
    course: &mut Course,
    run: &mut Woven,
    tree: &Tree,
    heads: &mut Heads,
) -> Result<Vec<u32>, NoMemory>
    requires { HasLanded tree.now run.old course.old }
    ensures { OnOk result (HasLanded tree.now run.new course.new) }
{
    let mut lines = Vec::with_capacity(alloc, heads.total())?;
    for _act in 0..heads.total() {
        match take_first(course, run, tree, heads)? {
            Some(line) => lines.push(line)?,
            None => return Ok(lines),
        }
    }
    Ok(lines)
}

/// The first of the candidates that is allowed happens, and all arrivals behind it: the place of
/// its line.
fn take_first(
    course: &mut Course,
    run: &mut Woven,
    tree: &Tree,
    heads: &mut Heads,
) -> Result<Option<u32>, NoMemory>
    requires { HasLanded tree.now run.old course.old }
    ensures { OnOk result (HasLanded tree.now run.new course.new) }
{
    for candidate in 0..heads.candidates().len() {
        let Some(act) = heads.untried(candidate) else {
            continue;
        };
        if try_act(course, run, tree, heads, &act)? {
            return Ok(Some(heads.take(candidate)));
        }
        heads.refuse(candidate);
    }
    Ok(None)
}

/// Which of the candidates is refused behind the acts that were taken, and all acts with it and
/// the others behind them.
fn stop<'a>(
    alloc: Global,
    course: &'a Course,
    run: &Woven,
    tree: &'a Tree,
    heads: &'a Heads<'a>,
    lines: &[u32],
) -> Result<Option<ActsTold>, NoMemory> {
    let mut acts = acts_taken(alloc, run, lines)?;
    let count = acts.len();
    let past = Past {
        kept: course.kept(),
        board: tree.board(),
        taken: acts.as_slice(),
        heads: &*heads,
    };
    let Some((candidate, refused)) = blamed(&past, heads.candidates()) else {
        return Ok(None);
    };
    if let Some(act) = heads.act(&candidate) {
        list_left(alloc, heads, act, &mut acts)?;
    }
    Ok(Some(told(alloc, heads, acts.as_slice(), count, refused)?))
}

/// The acts that were taken, at these lines.
fn acts_taken(alloc: Global, run: &Woven, lines: &[u32]) -> Result<Vec<SeenAct>, NoMemory> {
    let mut acts = Vec::with_capacity(alloc, lines.len())?;
    for (line, act) in lines.iter().zip(&run.acts) {
        if let Event::Act {
            op,
            step,
            place,
            ..
        } = *act
        {
            acts.push(SeenAct {
                line: *line,
                op,
                step,
                place,
            })?;
        }
    }
    Ok(acts)
}

/// The act that is refused, and behind it all others that are left.
fn list_left(
    alloc: Global,
    heads: &Heads,
    refused: SeenAct,
    all: &mut Vec<SeenAct>,
) -> Result<(), NoMemory> {
    all.push(refused)?;
    let left = heads.left(alloc)?;
    for act in &left {
        if *act != refused {
            all.push(*act)?;
        }
    }
    Ok(())
}

/// These acts as events, of which so many were taken.
fn told(
    alloc: Global,
    heads: &Heads,
    acts: &[SeenAct],
    taken: usize,
    refused: Refused,
) -> Result<ActsTold, NoMemory> {
    let mut events = Vec::with_capacity(alloc, acts.len())?;
    let mut lines = Vec::with_capacity(alloc, acts.len())?;
    for act in acts {
        if let Some(seen) = heads.seen(act.line) {
            events.push(act.event(seen))?;
            lines.push(act.line)?;
        }
    }
    Ok(ActsTold {
        acts: List::from_vec(events),
        lines: List::from_vec(lines),
        taken,
        refused: Some(refused),
    })
}

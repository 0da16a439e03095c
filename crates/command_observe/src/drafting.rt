//! What a log tells, as it was found. Of what was found nothing is claimed but that its events are
//! a run of its board.
ghost use Rattle.std.specs.Prelude.{IfOk, IsTrue};
ghost use Rattle.board_model.specs.WellFormed.{is_well_formed};
ghost use Rattle.observe_order.specs.Going.{EndsLanded};

use crate::reading::TreeLog;
use board_form::well_formed;
use board_model::{Board, Place};
use board_tree::Tree;
use observe_found::{LogFound, Times, find};
use observe_order::{Ordered, order};
use observe_told::{Log, Unfound, Unseen, WhyNot};
use pci_command::{Command, NoMemory};
use program_input::tree_of;
use program_status::{BoardFault, LogExcess, LogRefusal, Status};
use std::alloc::{AllocError, AllocFailed, Global};

/// Why no text is written.
#[derive(Clone, Copy, PartialEq, Eq)]
pub(crate) enum Untold {
    NotTold { line: u32, refusal: LogRefusal },
    TooMuch { line: u32, excess: LogExcess },
    NoMemory,
}

impl From<NoMemory> for Untold {
    fn from(_no_memory: NoMemory) -> Untold {
        Untold::NoMemory
    }
}

impl From<AllocError> for Untold {
    fn from(_refused: AllocError) -> Untold {
        Untold::NoMemory
    }
}

impl<T: Drop> From<AllocFailed<T>> for Untold {
    fn from(_refused: AllocFailed<T>) -> Untold {
        Untold::NoMemory
    }
}

impl From<Untold> for Status {
    ghost use Rattle.std.specs.Prelude.{◌≡◌};
    ghost use Rattle.command_observe.specs.Judging.{untold_status};

    ghost from_gives = { λ untold given. given ≡ untold_status untold };

    fn from(untold: Untold) -> Status {
        match untold {
            Untold::NotTold { line, refusal } => Status::NotTold { line, refusal },
            Untold::TooMuch { line, excess } => Status::TooMuch { line, excess },
            Untold::NoMemory => Status::NoMemory,
        }
    }
}

/// What a log tells, the tree of the board that was found, and the acts in an order.
#[derive(Drop)]
pub struct LogTold {
    pub tree: Tree,
    pub unseen: Unseen,
    pub ordered: Ordered,
}

/// What the log tells. A bridge that is full at 8, the greatest number that can be written, may
/// hold more, and is not accused of it: the log is too much.
pub(crate) fn told_by(alloc: Global, read: &TreeLog) -> Result<LogTold, Untold>
    ensures { IfOk result (λ told. EndsLanded told.tree told.ordered.run) }
{
    let told = told_best(alloc, read)?;
    let Some(refused) = told.ordered.refused() else {
        return Ok(told);
    };
    match refused.reason {
        WhyNot::FullOfWrites { posted: 8, .. } | WhyNot::FullOfRequests { delayed: 8, .. } => {
            drop(told);
            Err(too_much(&read.log, refused.line, LogExcess::Pieces))
        }
        _ => Ok(told),
    }
}

/// The same. Where its acts are no run, no Retry latched what went on when it began, as far as
/// others may have: if that makes them a run, it is told.
fn told_best(alloc: Global, read: &TreeLog) -> Result<LogTold, Untold>
    ensures { IfOk result (λ told. EndsLanded told.tree told.ordered.run) }
{
    let told = told_with(alloc, read, Times::Meet)?;
    if told.ordered.refused().is_none() {
        return Ok(told);
    }
    match told_with(alloc, read, Times::Apart) {
        Ok(apart) if apart.ordered.refused().is_none() => {
            drop(told);
            Ok(apart)
        }
        Ok(apart) => {
            drop(apart);
            Ok(told)
        }
        Err(Untold::NoMemory) => {
            drop(told);
            Err(Untold::NoMemory)
        }
        Err(_) => Ok(told),
    }
}

fn told_with(alloc: Global, read: &TreeLog, times: Times) -> Result<LogTold, Untold>
    ensures { IfOk result (λ told. EndsLanded told.tree told.ordered.run) }
{
    match tell(alloc, &read.tree, &read.log, times) {
        Ok(told) => Ok(told),
        Err(unfound) => Err(not_told(&read.log, read.tree.board(), unfound)),
    }
}

/// What a log of the board of this tree tells.
pub fn tell(alloc: Global, tree: &Tree, log: &Log, times: Times) -> Result<LogTold, Unfound>
    ensures { IfOk result (λ told. EndsLanded told.tree told.ordered.run) }
{
    let lines = log.lines.as_slice();
    let LogFound {
        board,
        acts,
        unseen,
    } = find(alloc, tree, lines, log.phases.as_slice(), times)?;
    let tree = found_tree(log, board)?;
    let ordered = order(alloc, &tree, acts, lines)?;
    Ok(LogTold {
        tree,
        unseen,
        ordered,
    })
}

/// The tree of the board that was found.
fn found_tree(log: &Log, board: Board) -> Result<Tree, Unfound> {
    let line = u32::try_from(log.lines.as_slice().len()).unwrap_or(u32::MAX);
    let too_many = Unfound::TooManyOperations {
        line: line.saturating_sub(1),
    };
    if !well_formed(&board) {
        return Err(too_many);
    }
    match tree_of(board) {
        Ok(tree) => Ok(tree),
        Err(Status::BadBoard { fault, .. }) => Err(match fault {
            BoardFault::Tree(_) => Unfound::NoTree,
            BoardFault::Bound(bound) => Unfound::TooManyEvents { bound },
            BoardFault::Line(_) | BoardFault::Device(_) => too_many,
        }),
        Err(_) => Err(too_many),
    }
}

/// How it is told that a log names no acts, or is too much.
fn not_told(log: &Log, board: &Board, unfound: Unfound) -> Untold
    requires { IsTrue (is_well_formed board.now) }
{
    match unfound {
        Unfound::NotHeld { line, .. } | Unfound::NotAsked { line, .. } => Untold::NotTold {
            line: log.word_of(line).line,
            refusal: LogRefusal::NoAct,
        },
        Unfound::TooManyOperations { line } => too_much(log, line, LogExcess::Operations),
        Unfound::TooManyPieces { line } => too_much(log, line, LogExcess::Pieces),
        Unfound::TooManyPairings { line } => too_much(log, line, LogExcess::Pairings),
        Unfound::TooManyEvents { .. } => Untold::TooMuch {
            line: last_number(log),
            excess: LogExcess::Events,
        },
        Unfound::NoTree => Untold::TooMuch {
            line: header_line(log, board),
            excess: LogExcess::Operations,
        },
        Unfound::NoMemory => Untold::NoMemory,
    }
}

fn too_much(log: &Log, place: u32, excess: LogExcess) -> Untold {
    Untold::TooMuch {
        line: log.word_of(place).line,
        excess,
    }
}

/// The number of the line of an act, by its number from 1 on.
pub(crate) fn line_at(log: &Log, lines: &[u32], act: u32) -> u32 {
    let place = lines.get(act.saturating_sub(1) as usize).copied();
    log.word_of(place.unwrap_or(0)).line
}

/// What was written is not what the log tells: so it is told at its last line.
pub(crate) fn unheld(log: &Log) -> Untold {
    Untold::NotTold {
        line: last_number(log),
        refusal: LogRefusal::NoAct,
    }
}

fn last_number(log: &Log) -> u32 {
    log.lines.as_slice().last().map_or(1, |seen| seen.line)
}

/// The number of the first line that writes a register of a bridge, which no board may do.
fn header_line(log: &Log, board: &Board) -> u32
    requires { IsTrue (is_well_formed board.now) }
{
    for seen in log.lines.as_slice() {
        let is_write = seen.command.code() == Command::CfgWrite.code();
        if is_write && matches!(seen.claimant(board), Place::Header(_)) {
            return seen.line;
        }
    }
    last_number(log)
}

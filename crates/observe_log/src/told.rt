ghost use Rattle.std.specs.Prelude.{◌≡◌, ◌<◌, map, length, IfOk, IsTrue};
ghost use Rattle.board_model.specs.WellFormed.{is_well_formed};
ghost use Rattle.law_early.specs.Early.{acts_of};
ghost use Rattle.observe_told.specs.Addresses.{phases_of_line};
ghost use Rattle.observe_log.specs.Rows.{row_of};
ghost use Rattle.observe_log.specs.Acts.{is_over};
ghost use Rattle.observe_log.specs.Told.{AreToldBy, is_latch};
ghost use Rattle.observe_log.specs.Checks.{is_act, AllFollow, AllOver, AllInOrder, AreNone};
ghost use Rattle.observe_log.specs.Checks.{GoesOn, TakesTurn, turn_behind, AreBegun, AllBegin};

use crate::acts::act_of;
use crate::boards::is_seen_board;
use crate::row::row_of;
use crate::rows::is_over;
use crate::shown::Shown;
use board_model::{Board, Master};
use history_model::{By, Event, Step};
use observe_told::{Ending, Log, Seen};
use pci_command::{NoMemory, OpId};
use std::alloc::Global;

/// Whether the acts of these events of this board are told by the log, where each act is of the
/// line at its place among the acts, by the place of the line in the log, from 0. Events stand
/// oldest first; arrivals are passed over, since no line tells of them.
pub fn is_told(
    alloc: Global,
    log: &Log,
    board: &Board,
    events: &[Event],
    lines: &[u32],
) -> Result<bool, NoMemory>
    requires { IsTrue (is_well_formed log.now.board) }
    ensures { IfOk result
        (λ told. IsTrue told → AreToldBy log.now board.now (acts_of events.now) lines.now) }
{
    let mut shown = nothing_shown(alloc, log.lines.as_slice())?;
    let mut turns = no_turns(alloc, board.masters.as_slice())?;
    let shown = shown.as_mut_slice();
    let turns = turns.as_mut_slice();
    Ok(are_told(log, board, events, lines, shown, turns))
}

/// The same, where nothing is shown yet of any line, and no operation is begun of any master.
#[tactic(auto, using(crate::proofs::ToldLemmas::told_from))]
fn are_told(
    log: &Log,
    board: &Board,
    events: &[Event],
    lines: &[u32],
    shown: &mut [Shown],
    turns: &mut [u32],
) -> bool
    requires formed { IsTrue (is_well_formed log.now.board) }
    requires nothing { shown.old ≡ map (λ _. Shown.Dwords 0) log.now.lines }
    requires none { turns.old ≡ map (λ _. 0) board.now.masters }
    ensures { IsTrue result → AreToldBy log.now board.now (acts_of events.now) lines.now }
{
    if !is_seen_board(&log.board, board) {
        return false;
    }
    if !all_follow(log, board, events, lines, shown) {
        return false;
    }
    if !all_over(log, shown) {
        return false;
    }
    if !are_in_order(log.lines.as_slice(), lines) {
        return false;
    }
    if !count_begun(events, turns) {
        return false;
    }
    all_begin(board.masters.as_slice(), turns)
}

/// That nothing is shown yet, for each line.
fn nothing_shown(alloc: Global, lines: &[Seen]) -> Result<Vec<Shown>, NoMemory>
    ensures { IfOk result (λ shown. shown.items ≡ map (λ _. Shown.Dwords 0) lines.now) }
{
    Ok(lines.iter().map(|_line| Shown::Dwords(0)).collect(alloc)?)
}

/// Whether each act is one of its line, behind those before it, and there are as many lines; what
/// all have shown is put in the place of what was shown before.
#[tactic(auto, using(crate::proofs::FollowLemmas::follow_steps))]
fn all_follow(
    log: &Log,
    board: &Board,
    events: &[Event],
    lines: &[u32],
    shown: &mut [Shown],
) -> bool
    requires formed { IsTrue (is_well_formed log.now.board) }
    requires each { length shown.old ≡ length log.now.lines }
    ensures { IsTrue result →
        AllFollow log.now board.now (acts_of events.now) lines.now shown.old shown.new }
{
    let mut acts = 0;
    for event in events {
        if !is_act(event) {
            continue;
        }
        let Some(place) = lines.get(acts) else {
            return false;
        };
        let n = *place as usize;
        let Some(seen) = log.lines.as_slice().get(n) else {
            return false;
        };
        let Some(next) = act_of(log, board, seen, shown[n], event) else {
            return false;
        };
        shown[n] = next;
        acts += 1;
    }
    acts == lines.len()
}

/// Whether an event is no arrival.
fn is_act(event: &Event) -> bool
    ensures { result ≡ is_act event.now }
{
    match event {
        Event::Act { .. } => true,
        Event::Arrive { .. } => false,
    }
}

/// Whether the acts have shown all of each line.
#[tactic(auto, using(crate::proofs::FollowLemmas::over_steps))]
fn all_over(log: &Log, shown: &[Shown]) -> bool
    requires formed { IsTrue (is_well_formed log.now.board) }
    requires each { length shown.now ≡ length log.now.lines }
    ensures { IsTrue result → AllOver log.now shown.now }
{
    for (n, seen) in log.lines.as_slice().iter().enumerate() {
        if !is_shown(log, seen, shown[n]) {
            return false;
        }
    }
    true
}

/// Whether all of a line is shown. Of a Retry nothing has to be, whoever claims it.
fn is_shown(log: &Log, seen: &Seen, shown: Shown) -> bool
    requires { IsTrue (is_well_formed log.now.board) }
    ensures { result ≡
        is_over (row_of log.now seen.now) seen.now (phases_of_line log.now seen.now) shown }
{
    if is_fruitless(seen.ending, shown) {
        return true;
    }
    is_over(row_of(log, seen), seen, log.phases_of(seen), shown)
}

fn is_fruitless(ending: Ending, shown: Shown) -> bool
    ensures { IsTrue result → (ending ≡ Ending.Retry) × (shown ≡ Shown.Dwords 0) }
{
    matches!((ending, shown), (Ending::Retry, Shown::Dwords(0)))
}

/// Whether the acts stand in the order of the lines of each bus, and of the times.
#[tactic(auto, using(crate::proofs::FollowLemmas::stand_steps))]
fn are_in_order(seen: &[Seen], lines: &[u32]) -> bool
    ensures { IsTrue result → AllInOrder seen.now lines.now }
{
    let mut latest_start = 0u64;
    let mut last = [0u32; 256];
    for place in lines {
        let Some(line) = seen.get(*place as usize) else {
            return false;
        };
        let bus = place_of(line.bus);
        if *place < last[bus] || line.end < latest_start {
            return false;
        }
        last[bus] = *place;
        latest_start = line.start.max(latest_start);
    }
    true
}

/// The place of a bus among all 256.
fn place_of(bus: u8) -> usize
    ensures { (result ≡ bus) × (result < 256) }
{
    usize::from(bus)
}

/// That no operation is begun, for each master.
fn no_turns(alloc: Global, masters: &[Master]) -> Result<Vec<u32>, NoMemory>
    ensures { IfOk result (λ turns. turns.items ≡ map (λ _. 0) masters.now) }
{
    Ok(masters.iter().map(|_master| 0).collect(alloc)?)
}

/// Counts the operations of each master that have an act, where they come one after the other.
#[tactic(auto, using(crate::proofs::BegunLemmas::begun_steps))]
fn count_begun(events: &[Event], turns: &mut [u32]) -> bool
    requires { AreNone turns.old }
    ensures { IsTrue result → AreBegun events.now (length events.now) turns.new }
{
    for event in events {
        if !begin(event, turns) {
            return false;
        }
    }
    true
}

/// Takes the turn of an act of a master, if it is of the operation that is open, or of the next one
/// where none is.
#[tactic(auto, using(crate::proofs::BegunLemmas::goes_steps))]
fn begin(act: &Event, turns: &mut [u32]) -> bool
    ensures { IsTrue result → GoesOn act.now turns.old turns.new }
{
    match *act {
        Event::Act {
            by: By::Master,
            op,
            step,
            ..
        } => begin_own(op, is_latch(step), turns),
        Event::Act {
            by: By::Lane(_),
            ..
        } => true,
        Event::Arrive { .. } => true,
    }
}

/// The same of an operation of a master, where the act is a Latch or not.
fn begin_own(op: OpId, latches: bool, turns: &mut [u32]) -> bool
    ensures { IsTrue result → TakesTurn op latches turns.old turns.new }
{
    let master = usize::from(op.master);
    let Some(turn) = turns.get(master).copied() else {
        return false;
    };
    let over = 2 * u32::from(op.index);
    if turn != over && turn != over + 1 {
        return false;
    }
    turns[master] = turn_behind(latches, op.index);
    true
}

fn turn_behind(latches: bool, index: u16) -> u32
    ensures { result ≡ turn_behind latches index }
{
    let over = 2 * u32::from(index);
    if latches { over + 1 } else { over + 2 }
}

fn is_latch(step: Step) -> bool
    ensures { result ≡ is_latch step }
{
    matches!(step, Step::Latch)
}

/// Whether no master has more operations than are begun.
#[tactic(auto, using(crate::proofs::BegunLemmas::begin_steps))]
fn all_begin(masters: &[Master], turns: &[u32]) -> bool
    ensures { IsTrue result → AllBegin masters.now turns.now }
{
    for (m, master) in masters.iter().enumerate() {
        match turns.get(m) {
            Some(turn) if master.ops.as_slice().len() <= (*turn as usize + 1) / 2 => {}
            _ => return false,
        }
    }
    true
}

ghost use Rattle.std.specs.Prelude.{◌≡◌, ◌≤◌, ◌+◌, ◌++◌, ◌∷◌, ◌&&◌, [], IfOk, OnOk, length, nat_lt};
ghost use Rattle.std.specs.Prelude.{IfSome, true, take, if◌then◌else◌};
ghost use Rattle.std.specs.List.{filter, list_any};
ghost use Rattle.board_writes.specs.Stretches.{joined};
ghost use Rattle.board_writes.specs.Looks.{any_before, clock_in, no_more_in, left_out_in};
ghost use Rattle.board_writes.specs.Looks.{is_reached_in, TellAlike, TellsNothing, IsOrdered};
ghost use Rattle.board_writes.specs.Polls.{raises_it, staying};
ghost use Rattle.board_writes.specs.Stretches.{Stretch, AreStretches, first_before, PartsBefore};
ghost use Rattle.board_writes.specs.Stretches.{AreBefore, AreAmong, PutsRun, ends_with, first_in};
ghost use Rattle.board_writes.specs.Stretches.{IsParted, is_reached_at, list_of, stay};
ghost use Rattle.board_writes.specs.Raising.{AreRaising};

use crate::known::ClockTable;
use crate::polls::awaited::Awaited;
use crate::polls::looks::is_before;
use crate::writers::{Run, Stretches, WordWrite, count_below, is_behind};
use pci_command::{NoMemory, OpId, same_op};
use std::alloc::Global;

/// Whether one of these writes comes before the poll: then the first of its stretch does.
pub(crate) fn is_any_first_before(table: &ClockTable, poll: OpId, runs: &[Run]) -> bool
    requires { AreStretches runs.now }
    ensures { result ≡ any_before table.now poll (joined runs.now) }
{
    has_first_before(table, poll, runs)
}

fn has_first_before(table: &ClockTable, poll: OpId, runs: &[Run]) -> bool
    ensures { result ≡ list_any (first_before table.now poll) runs.now }
{
    runs.iter()
        .any(|run| is_first_before(table, poll, run.as_slice()))
}

fn is_first_before(table: &ClockTable, poll: OpId, run: &[WordWrite]) -> bool
    ensures { result ≡ first_before table.now poll run.now }
{
    match run {
        [first, ..] => is_before(table, first.op, poll),
        [] => false,
    }
}

/// Of the raisers of a poll among these writes those that tell it what all do that the writes of
/// its dword do not leave out.
///
/// Of the raisers of a stretch that come before the poll the last alone may stay, since it leaves
/// out the others. Where it does, the poll is told of nothing: whoever comes after a write knows all
/// that the write does. Those that do not come before the poll all stay, since what leaves a write
/// out comes after it; the first of them knows no more than the others.
///
/// The stretch where one stayed is the first that is looked at the next time: most often it stays
/// again, and one look is enough. Those that may raise it are looked for among the second of these,
/// those by which they are left out among all writes of the dword.
pub(crate) fn raisers_among(
    alloc: Global,
    table: &ClockTable,
    poll: OpId,
    awaited: Awaited,
    writes: &Stretches,
    raising: &Stretches,
) -> Result<Vec<WordWrite>, NoMemory>
    requires ordered { IsOrdered table.now }
    requires raising { AreRaising awaited writes.now raising.now }
    ensures { IfOk result (λ found. TellAlike table.now poll found.items
        (staying table.now poll awaited writes.now writes.now)) }
{
    match guessed(table, poll, awaited, writes, raising) {
        Some(last) => one(alloc, last),
        None => raisers_among_all(alloc, table, poll, awaited, writes, raising),
    }
}

fn one(alloc: Global, write: WordWrite) -> Result<Vec<WordWrite>, NoMemory>
    ensures { IfOk result (λ list. list.items ≡ write ∷ []) }
{
    let mut list = Vec::new(alloc);
    list.push(write)?;
    Ok(list)
}

/// A raiser that comes before the poll and stays, if there is one in the stretch where there was
/// the last time.
fn guessed(
    table: &ClockTable,
    poll: OpId,
    awaited: Awaited,
    writes: &Stretches,
    raising: &Stretches,
) -> Option<WordWrite>
    requires ordered { IsOrdered table.now }
    requires raising { AreRaising awaited writes.now raising.now }
    ensures { IfSome result (λ last. TellAlike table.now poll (last ∷ [])
        (staying table.now poll awaited writes.now writes.now)) }
{
    match raising.runs().get(raising.guess()) {
        Some(these) => staying_in(table, poll, awaited, writes.runs(), these),
        None => None,
    }
}

/// Of the raisers of a stretch that come before the poll the one that stays, if there is one.
fn staying_in(
    table: &ClockTable,
    poll: OpId,
    awaited: Awaited,
    writes: &[Run],
    run: &Run,
) -> Option<WordWrite>
    requires ordered { IsOrdered table.now }
    requires writes { AreStretches writes.now }
    requires run { Stretch run.now }
    requires among { AreAmong (joined writes.now) run.now }
    ensures { IfSome result (λ last. PutsRun table.now poll (joined writes.now)
        (filter (raises_it awaited) run.now) [] (last ∷ []) true) }
{
    let count = count_before(table, poll, run.as_slice());
    staying_last(table, poll, awaited, writes, run, count)
}

/// The same as all of them are looked at, one stretch after another.
fn raisers_among_all(
    alloc: Global,
    table: &ClockTable,
    poll: OpId,
    awaited: Awaited,
    writes: &Stretches,
    raising: &Stretches,
) -> Result<Vec<WordWrite>, NoMemory>
    requires ordered { IsOrdered table.now }
    requires raising { AreRaising awaited writes.now raising.now }
    ensures { IfOk result (λ found. TellAlike table.now poll found.items
        (staying table.now poll awaited writes.now writes.now)) }
{
    let mut found = Vec::new(alloc);
    let (runs, among) = (writes.runs(), raising.runs());
    let ended = put_raisers(&mut found, table, poll, awaited, runs, among)?;
    raising.guess_next(ended);
    Ok(found)
}

/// The place of the stretch where one that comes before the poll stays, if there is one.
fn put_raisers(
    found: &mut Vec<WordWrite>,
    table: &ClockTable,
    poll: OpId,
    awaited: Awaited,
    writes: &[Run],
    raising: &[Run],
) -> Result<Option<usize>, NoMemory>
    requires ordered { IsOrdered table.now }
    requires writes { AreStretches writes.now }
    requires raising { AreStretches raising.now }
    requires among { AreAmong (joined writes.now) (joined raising.now) }
    requires none { found.old.items ≡ [] }
    ensures { OnOk result (TellAlike table.now poll found.new.items
        (staying table.now poll awaited (joined writes.now) (joined raising.now))) }
{
    for (place, run) in raising.iter().enumerate() {
        let count = found.len();
        let ended = put_run(found, table, poll, awaited, writes, run)?;
        if ended {
            return Ok(Some(place));
        }
        if count < found.len() && are_enough(table, poll, found.as_slice()) {
            return Ok(None);
        }
    }
    Ok(None)
}

/// Whether the last two of these raisers tell the poll nothing: then nor do all.
fn are_enough(table: &ClockTable, poll: OpId, found: &[WordWrite]) -> bool
    ensures { result ≡ true → TellsNothing table.now poll found.now }
{
    let count = found.len();
    count >= 2 && table.tell_nothing(found[count - 2].op, found[count - 1].op, poll)
}

/// Of the raisers of a stretch the last that comes before the poll, if it stays, or else the first
/// that does not; whether it was the former.
fn put_run(
    found: &mut Vec<WordWrite>,
    table: &ClockTable,
    poll: OpId,
    awaited: Awaited,
    writes: &[Run],
    run: &Run,
) -> Result<bool, NoMemory>
    requires ordered { IsOrdered table.now }
    requires writes { AreStretches writes.now }
    requires run { Stretch run.now }
    requires among { AreAmong (joined writes.now) run.now }
    ensures { IfOk result (PutsRun table.now poll (joined writes.now)
        (filter (raises_it awaited) run.now) found.old.items found.new.items) }
{
    let raising = run.from_raising(awaited, 0);
    if is_first_before(table, poll, raising) {
        put_parts(found, table, poll, awaited, writes, run)
    } else {
        put_first(found, raising)?;
        Ok(false)
    }
}

/// The same where some come before the poll.
fn put_parts(
    found: &mut Vec<WordWrite>,
    table: &ClockTable,
    poll: OpId,
    awaited: Awaited,
    writes: &[Run],
    run: &Run,
) -> Result<bool, NoMemory>
    requires ordered { IsOrdered table.now }
    requires writes { AreStretches writes.now }
    requires run { Stretch run.now }
    requires among { AreAmong (joined writes.now) run.now }
    ensures { IfOk result (PutsRun table.now poll (joined writes.now)
        (filter (raises_it awaited) run.now) found.old.items found.new.items) }
{
    let count = count_before(table, poll, run.as_slice());
    match staying_last(table, poll, awaited, writes, run, count) {
        Some(last) => {
            found.push(last)?;
            Ok(true)
        }
        None => {
            put_first(found, run.from_raising(awaited, count))?;
            Ok(false)
        }
    }
}

/// The first of these, if there is one.
fn put_first(found: &mut Vec<WordWrite>, writes: &[WordWrite]) -> Result<(), NoMemory>
    ensures { OnOk result (found.new.items ≡ found.old.items ++ first_in writes.now) }
{
    if let [first, ..] = writes {
        found.push(*first)?;
    }
    Ok(())
}

/// Those of a stretch that come before the poll, and those that do not.
fn parts<'a>(
    table: &ClockTable,
    poll: OpId,
    run: &'a [WordWrite],
) -> (&'a [WordWrite], &'a [WordWrite])
    requires { Stretch run.now }
    ensures { IsParted table.now poll run.now result.0.now result.1.now }
{
    run.split_at(count_before(table, poll, run))
}

/// How many of a stretch come before the poll, from the first on.
fn count_before(table: &ClockTable, poll: OpId, run: &[WordWrite]) -> usize
    requires { Stretch run.now }
    ensures within { result ≤ length run.now }
    ensures parts { PartsBefore table.now poll run.now result }
{
    match run {
        [first, ..] => count_below(run, table.look(poll, first.op.master)),
        [] => 0,
    }
}

/// Of the raisers of a stretch that come before the poll, as so many do, the one that is not left
/// out, if there is one: the last.
fn staying_last(
    table: &ClockTable,
    poll: OpId,
    awaited: Awaited,
    writes: &[Run],
    run: &Run,
    count: usize,
) -> Option<WordWrite>
    requires ordered { IsOrdered table.now }
    requires writes { AreStretches writes.now }
    requires run { Stretch run.now }
    requires within { count ≤ length run.now }
    requires before { PartsBefore table.now poll run.now count }
    requires among { AreAmong (joined writes.now) run.now }
    ensures { stay table.now poll (joined writes.now)
        (filter (raises_it awaited) (take count run.now)) ≡ list_of result }
{
    match run.last_raising(awaited, count) {
        Some(last) => one_unless(is_left_out(table, poll, writes, last, run), last),
        None => None,
    }
}

fn one_unless(left_out: bool, write: &WordWrite) -> Option<WordWrite>
    ensures { list_of result ≡ (if left_out then [] else write.now ∷ []) }
{
    if left_out { None } else { Some(*write) }
}

/// Whether the raiser, which is of the stretch, is left out by one of the writes. Most often it is
/// so by one of the stretch by which one of it was the last time.
fn is_left_out(
    table: &ClockTable,
    poll: OpId,
    writes: &[Run],
    raiser: &WordWrite,
    run: &Run,
) -> bool
    requires ordered { IsOrdered table.now }
    requires writes { AreStretches writes.now }
    ensures { result ≡ left_out_in table.now poll (joined writes.now) raiser.now }
{
    match writes.get(run.guess()) {
        Some(guess) if is_left_out_in(table, poll, guess.as_slice(), raiser) => true,
        _ => is_left_out_by_any(table, poll, writes, raiser, run),
    }
}

/// The same, and where to look first the next time.
fn is_left_out_by_any(
    table: &ClockTable,
    poll: OpId,
    writes: &[Run],
    raiser: &WordWrite,
    run: &Run,
) -> bool
    requires ordered { IsOrdered table.now }
    requires writes { AreStretches writes.now }
    ensures { result ≡ left_out_in table.now poll (joined writes.now) raiser.now }
{
    for (place, these) in writes.iter().enumerate() {
        if is_left_out_in(table, poll, these.as_slice(), raiser) {
            run.guess_next(place);
            return true;
        }
    }
    false
}

/// The same by one of a stretch: of those that come before the poll by one of the last two, one of
/// which is another than the raiser.
fn is_left_out_in(table: &ClockTable, poll: OpId, run: &[WordWrite], raiser: &WordWrite) -> bool
    requires ordered { IsOrdered table.now }
    requires run { Stretch run.now }
    ensures { result ≡ left_out_in table.now poll run.now raiser.now }
{
    let (before, _) = parts(table, poll, run);
    let (_, two) = before.split_at(before.len().saturating_sub(2));
    is_ended_by(table, raiser, two)
}

/// Whether once one of these lands, another than the raiser, the raiser lands no more.
fn is_ended_by(table: &ClockTable, raiser: &WordWrite, writes: &[WordWrite]) -> bool
    ensures { result ≡ list_any (ends_with table.now raiser.now) writes.now }
{
    writes.iter().any(|write| ends_with(table, raiser, write))
}

fn ends_with(table: &ClockTable, raiser: &WordWrite, write: &WordWrite) -> bool
    ensures { result ≡ ends_with table.now raiser.now write.now }
{
    !same_op(write.op, raiser.op) && lands_no_more(table, raiser, write)
}

/// Whether a write lands no more once the other does.
fn lands_no_more(table: &ClockTable, first: &WordWrite, second: &WordWrite) -> bool
    ensures { result ≡ no_more_in table.now first.now second.now.op }
{
    (first.posted && is_before(table, first.op, second.op))
        || (is_behind(first, second) || has_ended(table, first.op, second.op))
}

/// Whether the operation behind one comes before another.
fn has_ended(table: &ClockTable, first: OpId, second: OpId) -> bool
    ensures { result ≡ nat_lt (first.index + 1) (clock_in table.now second first.master) }
{
    usize::from(first.index) + 1 < table.look(second, first.master)
}

/// Whether some run of the board may come to one of the raisers among these writes that the writes
/// of the dword do not leave out.
pub(crate) fn is_any_reached(
    table: &ClockTable,
    poll: OpId,
    awaited: Awaited,
    writes: &Stretches,
    raising: &Stretches,
) -> bool
    requires ordered { IsOrdered table.now }
    requires raising { AreRaising awaited writes.now raising.now }
    ensures { result ≡ list_any (λ f. raises_it awaited f
        && is_reached_in table.now poll writes.now f) writes.now }
{
    let runs = writes.runs();
    match raising.runs().get(raising.guess()) {
        Some(these) if is_run_reached(table, poll, awaited, runs, these) => true,
        _ => is_any_run_reached(table, poll, awaited, writes, raising),
    }
}

/// The same, and where to look first the next time.
fn is_any_run_reached(
    table: &ClockTable,
    poll: OpId,
    awaited: Awaited,
    writes: &Stretches,
    raising: &Stretches,
) -> bool
    requires ordered { IsOrdered table.now }
    requires raising { AreRaising awaited writes.now raising.now }
    ensures { result ≡ list_any (λ f. raises_it awaited f
        && is_reached_in table.now poll writes.now f) writes.now }
{
    let (runs, among) = (writes.runs(), raising.runs());
    for (place, run) in among.iter().enumerate() {
        if is_run_reached(table, poll, awaited, runs, run) {
            raising.guess_next(Some(place));
            return true;
        }
    }
    false
}

/// The same of one stretch.
fn is_run_reached(
    table: &ClockTable,
    poll: OpId,
    awaited: Awaited,
    writes: &[Run],
    run: &Run,
) -> bool
    requires ordered { IsOrdered table.now }
    requires writes { AreStretches writes.now }
    requires run { Stretch run.now }
    requires among { AreAmong (joined writes.now) run.now }
    ensures { result ≡ list_any (λ f. raises_it awaited f
        && is_reached_in table.now poll (joined writes.now) f) run.now }
{
    let count = count_before(table, poll, run.as_slice());
    has_reached(table, awaited, run.from_raising(awaited, count))
        || is_last_reached(table, poll, awaited, writes, run, count)
}

/// Whether some run may come to one of these that brings what is waited for.
///
/// Where no run comes to the first of them, no run does to those whose index is below what is known
/// of their own program before that one.
fn has_reached(table: &ClockTable, awaited: Awaited, writes: &[WordWrite]) -> bool
    requires ordered { IsOrdered table.now }
    requires run { Stretch writes.now }
    ensures { result ≡ list_any (is_reached_at table.now) (filter (raises_it awaited) writes.now) }
{
    match writes {
        [first, ..] => {
            let known = table.look(first.op, first.op.master);
            let (_, rest) = writes.split_at(count_below(writes, known));
            has_any_reached(table, awaited, rest)
        }
        [] => false,
    }
}

fn has_any_reached(table: &ClockTable, awaited: Awaited, writes: &[WordWrite]) -> bool
    ensures { result ≡ list_any (λ f. raises_it awaited f && is_reached_at table.now f) writes.now }
{
    writes.iter().any(|write| awaited.is_raised_by(write) && is_reached(table, write))
}

/// The same of those of a stretch that come before the poll, where they are not left out.
fn is_last_reached(
    table: &ClockTable,
    poll: OpId,
    awaited: Awaited,
    writes: &[Run],
    run: &Run,
    count: usize,
) -> bool
    requires ordered { IsOrdered table.now }
    requires writes { AreStretches writes.now }
    requires run { Stretch run.now }
    requires within { count ≤ length run.now }
    requires before { PartsBefore table.now poll run.now count }
    requires among { AreAmong (joined writes.now) run.now }
    ensures { result ≡ list_any (is_reached_at table.now) (stay table.now poll (joined writes.now)
        (filter (raises_it awaited) (take count run.now))) }
{
    match staying_last(table, poll, awaited, writes, run, count) {
        Some(last) => is_reached(table, &last),
        None => false,
    }
}

/// Whether some run of the board may come to the write.
fn is_reached(table: &ClockTable, write: &WordWrite) -> bool
    ensures { result ≡ is_reached_at table.now write.now }
{
    !is_before(table, write.op, write.op)
}

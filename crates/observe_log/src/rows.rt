//! One act more of a line, row by row.
ghost use Rattle.std.specs.Prelude.{◌≡◌, Some, IfSome};
ghost use Rattle.observe_log.specs.Acts.{latches, takes, reads, reads_first, writes, next_piece};
ghost use Rattle.observe_log.specs.Acts.{next_lost, posts, unclaimed, unclaimed_posts, provided};
ghost use Rattle.observe_log.specs.Acts.{asks, goes_on, is_start, is_whole, has_dwords, is_over};
ghost use Rattle.observe_log.specs.Acts.{are_lost, behind_lost, is_over_posted};

use crate::asked::{asks, asks_at, has_value, is_aborted, is_outcome, stand_in_front};
use crate::row::Row;
use crate::shown::Shown;
use history_model::Step;
use observe_told::{Seen, Who};
use pci_command::{OpId, Phase, Request, same_op};

/// What an act would show: its row, whether a bridge claims, the line and its data phases, and the
/// operation with its request.
#[derive(Drop)]
pub(crate) struct Act<'a> {
    pub(crate) row: Row,
    pub(crate) lane: bool,
    pub(crate) seen: &'a Seen,
    pub(crate) words: &'a [Phase],
    pub(crate) op: OpId,
    pub(crate) request: &'a Request,
}

/// What is shown of the line behind this step, if the act may be.
pub(crate) fn goes_on(act: &Act, shown: Shown, step: Step) -> Option<Shown>
    ensures { IfSome result (λ after.
        goes_on act.now.row act.now.lane act.now.seen.now act.now.words.now act.now.op
        act.now.request.now shown step ≡ Some after) }
{
    match act.row {
        Row::Silent => None,
        Row::Latches => latches(whole(act), shown, step),
        Row::Takes => takes(act, shown, step),
        Row::Reads => reads(act, shown, step),
        Row::ReadsFirst => reads_first(act, shown, step),
        Row::Writes => writes(act, shown, step),
        Row::Posts => posts(act, shown, step),
        Row::Unclaimed => unclaimed(whole(act), shown, step),
        Row::UnclaimedPosts => unclaimed_posts(act, shown, step),
    }
}

/// Whether the request asks all that the line asks.
fn whole(act: &Act) -> bool
    ensures { result ≡ asks act.now.seen.now act.now.words.now act.now.request.now }
{
    asks(act.seen, act.words, act.request)
}

fn provided(holds: bool, shown: Shown) -> Option<Shown>
    ensures { result ≡ provided holds shown }
{
    if holds { Some(shown) } else { None }
}

fn latches(asked: bool, shown: Shown, step: Step) -> Option<Shown>
    ensures { result ≡ latches asked shown step }
{
    match (shown, step) {
        (Shown::Dwords(k), Step::Latch) => provided(asked && k == 0, Shown::Whole),
        _ => None,
    }
}

fn takes(act: &Act, shown: Shown, step: Step) -> Option<Shown>
    ensures { result ≡
        takes act.now.seen.now act.now.words.now act.now.op
        (asks act.now.seen.now act.now.words.now act.now.request.now) shown step }
{
    match (shown, step) {
        (Shown::Dwords(k), Step::Latch) => {
            provided(whole(act) && k == 0, Shown::Latched(act.op))
        }
        (Shown::Dwords(k), Step::Take(outcome)) => {
            let taken = is_outcome(act.seen, act.words, outcome);
            provided(whole(act) && k == 0 && taken, Shown::Whole)
        }
        (Shown::Latched(op), Step::Take(outcome)) => {
            let taken = is_outcome(act.seen, act.words, outcome);
            provided(whole(act) && same_op(op, act.op) && taken, Shown::Whole)
        }
        _ => None,
    }
}

fn reads(act: &Act, shown: Shown, step: Step) -> Option<Shown>
    ensures { IfSome result (λ after.
        reads act.now.seen.now act.now.words.now act.now.request.now shown step ≡ Some after) }
{
    let Shown::Dwords(k) = shown else {
        return None;
    };
    let asked = asks_at(act.seen, k, act.request);
    match step {
        Step::Read(value) => {
            let next = k.checked_add(1)?;
            let read = has_value(value, act.words.get(k as usize));
            provided(asked && read, Shown::Dwords(next))
        }
        Step::TargetAbort => {
            let aborted = is_aborted(act.seen.ending);
            provided(
                asked && aborted && k as usize == act.words.len(),
                Shown::Whole,
            )
        }
        _ => None,
    }
}

fn reads_first(act: &Act, shown: Shown, step: Step) -> Option<Shown>
    ensures { result ≡
        reads_first act.now.seen.now act.now.words.now
        (asks act.now.seen.now act.now.words.now act.now.request.now) shown step }
{
    let Shown::Dwords(k) = shown else {
        return None;
    };
    match step {
        Step::Read(value) => {
            let read = has_value(value, act.words.first());
            provided(whole(act) && k == 0 && read, Shown::Whole)
        }
        Step::TargetAbort => {
            let aborted = is_aborted(act.seen.ending);
            provided(
                whole(act) && k == 0 && aborted && act.words.is_empty(),
                Shown::Whole,
            )
        }
        _ => None,
    }
}

fn writes(act: &Act, shown: Shown, step: Step) -> Option<Shown>
    ensures { result ≡
        writes act.now.seen.now
        (asks act.now.seen.now act.now.words.now act.now.request.now) shown step }
{
    let Shown::Dwords(k) = shown else {
        return None;
    };
    let aborted = is_aborted(act.seen.ending);
    match step {
        Step::Land => provided(whole(act) && k == 0 && !aborted, Shown::Whole),
        Step::TargetAbort => provided(whole(act) && k == 0 && aborted, Shown::Whole),
        _ => None,
    }
}

/// The next data phases of a posted write.
fn next_piece(act: &Act, k: u32) -> Option<Shown>
    ensures { IfSome result (λ after.
        next_piece act.now.seen.now act.now.words.now act.now.request.now k ≡ Some after) }
{
    let phases = act.request.phases.as_slice();
    let next = k.checked_add(u32::try_from(phases.len()).ok()?)?;
    if act.words.len() < k as usize {
        return None;
    }
    let (_before, words) = act.words.split_at(k as usize);
    let asked = asks_at(act.seen, k, act.request);
    provided(asked && stand_in_front(phases, words), Shown::Dwords(next))
}

/// An operation of which nothing was taken.
fn next_lost(act: &Act, k: u32) -> Option<Shown>
    ensures { IfSome result (λ after.
        next_lost act.now.seen.now act.now.request.now k ≡ Some after) }
{
    let phases = act.request.phases.as_slice();
    let next = k.checked_add(u32::try_from(phases.len()).ok()?)?;
    let asked = asks_at(act.seen, k, act.request);
    let who = act.seen.who;
    provided(asked && are_lost(who, phases), behind_lost(who, next))
}

/// Whether they are data phases of which nothing was taken: of a master one word, 0.
fn are_lost(who: Who, phases: &[Phase]) -> bool
    ensures { result ≡ are_lost who phases.now }
{
    let zero = Phase {
        value: 0,
        enables: 15,
    };
    match who {
        Who::Master(_) => phases == [zero].as_slice(),
        Who::Lane(_) => 0 < phases.len(),
    }
}

fn behind_lost(who: Who, k: u32) -> Shown
    ensures { result ≡ behind_lost who k }
{
    match who {
        Who::Master(_) => Shown::Whole,
        Who::Lane(_) => Shown::Dwords(k),
    }
}

fn posts(act: &Act, shown: Shown, step: Step) -> Option<Shown>
    ensures { IfSome result (λ after.
        posts act.now.seen.now act.now.words.now act.now.lane act.now.request.now shown step
        ≡ Some after) }
{
    let Shown::Dwords(k) = shown else {
        return None;
    };
    match step {
        Step::Accept if act.lane => next_piece(act, k),
        Step::Land if !act.lane => next_piece(act, k),
        Step::TargetAbort if is_aborted(act.seen.ending) && act.words.len() <= k as usize => {
            next_lost(act, k)
        }
        _ => None,
    }
}

fn unclaimed(asked: bool, shown: Shown, step: Step) -> Option<Shown>
    ensures { result ≡ unclaimed asked shown step }
{
    match (shown, step) {
        (Shown::Dwords(k), Step::MasterAbort) => provided(asked && k == 0, Shown::Whole),
        _ => None,
    }
}

fn unclaimed_posts(act: &Act, shown: Shown, step: Step) -> Option<Shown>
    ensures { IfSome result (λ after.
        unclaimed_posts act.now.seen.now act.now.request.now shown step ≡ Some after) }
{
    match (shown, step) {
        (Shown::Dwords(k), Step::MasterAbort) => next_lost(act, k),
        _ => None,
    }
}

/// Whether the acts of a line of this row have shown all of it.
pub(crate) fn is_over(row: Row, seen: &Seen, words: &[Phase], shown: Shown) -> bool
    ensures { result ≡ is_over row seen.now words.now shown }
{
    match row {
        Row::Silent => is_start(shown),
        Row::Latches => is_start(shown) || is_whole(shown),
        Row::Takes | Row::ReadsFirst | Row::Writes | Row::Unclaimed => is_whole(shown),
        Row::Reads if is_aborted(seen.ending) => is_whole(shown),
        Row::Reads => has_dwords(words.len(), shown),
        Row::Posts => is_over_posted(seen.who, is_aborted(seen.ending), words.len(), shown),
        Row::UnclaimedPosts => is_over_posted(seen.who, true, 0, shown),
    }
}

/// Whether so many dwords, and one at least, are shown; of a master that lost the rest, that too.
fn is_over_posted(who: Who, lost: bool, most: usize, shown: Shown) -> bool
    ensures { result ≡ is_over_posted who lost most shown }
{
    match who {
        Who::Master(_) if lost => is_whole(shown),
        Who::Master(_) | Who::Lane(_) => has_dwords(most, shown),
    }
}

fn is_start(shown: Shown) -> bool
    ensures { result ≡ is_start shown }
{
    match shown {
        Shown::Dwords(k) => k == 0,
        Shown::Latched(_) | Shown::Whole => false,
    }
}

fn is_whole(shown: Shown) -> bool
    ensures { result ≡ is_whole shown }
{
    matches!(shown, Shown::Whole)
}

/// Whether so many dwords, and one at least, are shown.
fn has_dwords(most: usize, shown: Shown) -> bool
    ensures { result ≡ has_dwords most shown }
{
    match shown {
        Shown::Dwords(k) => 0 < k && most <= k as usize,
        Shown::Latched(_) | Shown::Whole => false,
    }
}

ghost use Rattle.std.specs.Prelude.{◌≡◌, ◌≤◌, ◌-◌, true, length, map, slice_get};
ghost use Rattle.std.specs.Prelude.{not, ◌&&◌, None};
ghost use Rattle.std.specs.List.{find, filter, prefix_len};
ghost use Rattle.std.specs.Option.{option_map};
ghost use Rattle.pci_command.specs.Same.{same_op};
ghost use Rattle.safe_model.specs.largest.Tests.{is_before, lands_no_more};
ghost use Rattle.safe_model.specs.said.Said.{is_open};
ghost use Rattle.board_writes.specs.Rows.{table_of};
ghost use Rattle.board_writes.specs.Writes.{op_in};
ghost use Rattle.safe_said.specs.Landing.{is_chained, AreChained};
ghost use Rattle.board_writes.specs.Stretches.{joined};
ghost use Rattle.safe_said.specs.Members.{IsSeen};

use crate::looks::Looks;
use crate::order::lands_no_more;
use board_writes::{WordWrite, WordWrites};
use pci_command::{OpId, same_op};

/// The first of the writes of some runs that some other of them is not settled with: none where they
/// land in one order.
pub(crate) fn open_unless(looks: &Looks, chained: bool, runs: &[WordWrites]) -> Option<OpId>
    requires seen { IsSeen looks.now.tree.now looks.now.table.now looks.now.writers.now
        looks.now.polls.now }
    requires runs { AreChained looks.now.tree.now (table_of looks.now.table.now) runs.now }
    requires none { chained ≡ true → None ≡ find (is_open looks.now.tree.now (table_of
        looks.now.table.now) (map op_in (joined runs.now))) (map op_in (joined runs.now)) }
    ensures { result ≡ find (is_open looks.now.tree.now (table_of looks.now.table.now) (map op_in
        (joined runs.now))) (map op_in (joined runs.now)) }
{
    if chained {
        None
    } else {
        first_open(looks, runs)
    }
}

/// The first of them, by a look at each beside each run.
fn first_open(looks: &Looks, runs: &[WordWrites]) -> Option<OpId>
    requires seen { IsSeen looks.now.tree.now looks.now.table.now looks.now.writers.now
        looks.now.polls.now }
    requires runs { AreChained looks.now.tree.now (table_of looks.now.table.now) runs.now }
    ensures { result ≡ find (is_open looks.now.tree.now (table_of looks.now.table.now) (map op_in
        (joined runs.now))) (map op_in (joined runs.now)) }
{
    for run in runs {
        if let Some(open) = first_open_in(looks, runs, run.as_slice()) {
            return Some(open);
        }
    }
    None
}

/// The first of one of them.
fn first_open_in(looks: &Looks, runs: &[WordWrites], run: &[WordWrite]) -> Option<OpId>
    requires seen { IsSeen looks.now.tree.now looks.now.table.now looks.now.writers.now
        looks.now.polls.now }
    requires runs { AreChained looks.now.tree.now (table_of looks.now.table.now) runs.now }
    ensures { result ≡ find (is_open looks.now.tree.now (table_of looks.now.table.now) (map op_in
        (joined runs.now))) (map op_in run.now) }
{
    run.iter()
        .map(|write| write.op)
        .find(|write| is_open(looks, runs, *write))
}

/// Whether some other of the writes of some runs is not settled with this one.
fn is_open(looks: &Looks, runs: &[WordWrites], write: OpId) -> bool
    requires seen { IsSeen looks.now.tree.now looks.now.table.now looks.now.writers.now
        looks.now.polls.now }
    requires runs { AreChained looks.now.tree.now (table_of looks.now.table.now) runs.now }
    ensures { result ≡ is_open looks.now.tree.now (table_of looks.now.table.now) (map op_in
        (joined runs.now)) write }
{
    for run in runs {
        if is_open_in(looks, run.as_slice(), write) {
            return true;
        }
    }
    false
}

/// The same of one run. It takes a binary search.
fn is_open_in(looks: &Looks, run: &[WordWrite], write: OpId) -> bool
    requires seen { IsSeen looks.now.tree.now looks.now.table.now looks.now.writers.now
        looks.now.polls.now }
    requires run { is_chained looks.now.tree.now (table_of looks.now.table.now) (map op_in run.now)
        ≡ true }
    ensures { result ≡ is_open looks.now.tree.now (table_of looks.now.table.now) (map op_in
        run.now) write }
{
    match run.get(count_settled(looks, run, write)) {
        Some(other) => is_open_to(looks, write, other.op),
        None => false,
    }
}

/// Whether a write is another than one that lands no more once it does, and lands no more once that
/// does neither.
fn is_open_to(looks: &Looks, write: OpId, other: OpId) -> bool
    requires seen { IsSeen looks.now.tree.now looks.now.table.now looks.now.writers.now
        looks.now.polls.now }
    ensures { result ≡ (not (same_op write other) && not (lands_no_more looks.now.tree.now
        (table_of looks.now.table.now) write other)) }
{
    let board = looks.tree.board();
    !same_op(write, other) && !lands_no_more(board, looks.table, write, other)
}

/// How many of a run land no more once the write does, from the first on.
fn count_settled(looks: &Looks, run: &[WordWrite], write: OpId) -> usize
    requires seen { IsSeen looks.now.tree.now looks.now.table.now looks.now.writers.now
        looks.now.polls.now }
    requires run { is_chained looks.now.tree.now (table_of looks.now.table.now) (map op_in run.now)
        ≡ true }
    ensures count { result ≡ prefix_len (λ other. lands_no_more looks.now.tree.now (table_of
        looks.now.table.now) other write) (map op_in run.now) }
    ensures within { result ≤ length run.now }
{
    let board = looks.tree.board();
    run.partition_point(|other| lands_no_more(board, looks.table, other.op, write))
}

/// Whether all writes of these runs come before the read: where the last of each does, they do.
pub(crate) fn are_all_before(looks: &Looks, read: OpId, runs: &[WordWrites]) -> bool
    requires seen { IsSeen looks.now.tree.now looks.now.table.now looks.now.writers.now
        looks.now.polls.now }
    requires runs { AreChained looks.now.tree.now (table_of looks.now.table.now) runs.now }
    ensures { result ≡ true → filter (λ write. is_before looks.now.tree.now (table_of
        looks.now.table.now) write read) (map op_in (joined runs.now)) ≡ map op_in (joined
        runs.now) }
{
    for run in runs {
        if !is_last_before(looks, read, run.as_slice()) {
            return false;
        }
    }
    true
}

/// The same of one run.
fn is_last_before(looks: &Looks, read: OpId, run: &[WordWrite]) -> bool
    requires seen { IsSeen looks.now.tree.now looks.now.table.now looks.now.writers.now
        looks.now.polls.now }
    requires run { is_chained looks.now.tree.now (table_of looks.now.table.now) (map op_in run.now)
        ≡ true }
    ensures { result ≡ true → filter (λ write. is_before looks.now.tree.now (table_of
        looks.now.table.now) write read) (map op_in run.now) ≡ map op_in run.now }
{
    match last_of(run) {
        Some(last) => looks.table.is_before(last, read),
        None => true,
    }
}

fn last_of(run: &[WordWrite]) -> Option<OpId>
    ensures { result ≡ option_map op_in (slice_get run.now (length run.now - 1)) }
{
    match run.last() {
        Some(last) => Some(last.op),
        None => None,
    }
}

ghost use Rattle.std.specs.Prelude.{◌≡◌, ◌≤◌, true, length, map, get_or, IfOk, IfSome};
ghost use Rattle.std.specs.List.{find, filter, prefix_len, AllByRecursion};
ghost use Rattle.safe_model.specs.largest.Tests.{is_before};
ghost use Rattle.safe_model.specs.said.Said.{safe, left_by, is_beside, is_open};
ghost use Rattle.safe_model.specs.said.Said.{first_beside, said_beside};
ghost use Rattle.audit_clocks.specs.Tables.{dword};
ghost use Rattle.board_writes.specs.Rows.{table_of, KeepsPolls};
ghost use Rattle.board_writes.specs.Writes.{op_in, IsWordWrite};
ghost use Rattle.safe_said.specs.AllSaid.{verdict};
ghost use Rattle.safe_said.specs.Landing.{is_chained, AreChained};
ghost use Rattle.board_writes.specs.Stretches.{joined};
ghost use Rattle.safe_said.specs.Members.{AreMembers, IsSeen, said_open, said_with};

use crate::landing::{in_order, is_chained};
use crate::looks::Looks;
use crate::members::Reached;
use crate::open::{are_all_before, open_unless};
use crate::runs::runs_of;
use crate::values::value_of;
use crate::verdict::Said;
use board_model::Word;
use board_writes::{WordWrite, WordWrites, is_before};
use pci_command::{NoMemory, OpId};
use std::alloc::Global;

/// What is said of a read of the word, by the writes of the word that some run may come to.
pub(crate) fn said_of_read(
    alloc: Global,
    looks: &Looks,
    word: Word,
    read: OpId,
    reached: &Reached,
) -> Result<Said, NoMemory>
    requires seen { IsSeen looks.now.tree.now looks.now.table.now looks.now.writers.now
        looks.now.polls.now }
    requires members { AreMembers looks.now.tree.now (table_of looks.now.table.now) (dword word)
        reached.now }
    ensures { IfOk result (λ said. verdict said ≡ said_beside looks.now.tree.now (table_of
        looks.now.table.now) (dword word) read (first_beside looks.now.tree.now (table_of
        looks.now.table.now) (dword word) read)) }
{
    if let Some(said) = said_if_chained(looks, word, read, reached) {
        Ok(said)
    } else if let Some(beside) = first_beside(looks, read, reached.runs()) {
        Ok(Said::Unsafe { word, beside })
    } else if are_all_before(looks, read, reached.runs()) {
        said_behind_all(alloc, looks, word, reached)
    } else {
        said_by_order(alloc, looks, word, read, reached.writes())
    }
}

/// Where they land in one order and none of them is beside the read.
fn said_if_chained(looks: &Looks, word: Word, read: OpId, reached: &Reached) -> Option<Said>
    requires seen { IsSeen looks.now.tree.now looks.now.table.now looks.now.writers.now
        looks.now.polls.now }
    requires members { AreMembers looks.now.tree.now (table_of looks.now.table.now) (dword word)
        reached.now }
    ensures { IfSome result (λ said. verdict said ≡ said_beside looks.now.tree.now (table_of
        looks.now.table.now) (dword word) read (first_beside looks.now.tree.now (table_of
        looks.now.table.now) (dword word) read)) }
{
    if !reached.is_chained() {
        return None;
    }
    match beside_in(looks, read, reached.list()) {
        Some(_) => None,
        None => Some(said_in_chain(looks, word, read, reached)),
    }
}

/// Of a read behind all of them.
fn said_behind_all(
    alloc: Global,
    looks: &Looks,
    word: Word,
    reached: &Reached,
) -> Result<Said, NoMemory>
    requires seen { IsSeen looks.now.tree.now looks.now.table.now looks.now.writers.now
        looks.now.polls.now }
    requires members { AreMembers looks.now.tree.now (table_of looks.now.table.now) (dword word)
        reached.now }
    ensures { IfOk result (λ said. verdict said ≡ said_open looks.now.tree.now (table_of
        looks.now.table.now) (dword word) (map op_in reached.now.writes)) }
{
    said_with(alloc, looks, word, reached.writes(), reached.first_open())
}

/// Of a read that no write stands beside, where these land in one order.
fn said_in_chain(looks: &Looks, word: Word, read: OpId, reached: &Reached) -> Said
    requires seen { IsSeen looks.now.tree.now looks.now.table.now looks.now.writers.now
        looks.now.polls.now }
    requires members { AreMembers looks.now.tree.now (table_of looks.now.table.now) (dword word)
        reached.now }
    requires chained { is_chained looks.now.tree.now (table_of looks.now.table.now) (map op_in
        reached.now.list) ≡ true }
    ensures { verdict result ≡ safe (dword word) (left_by looks.now.tree.now (dword word) (filter
        (λ write. is_before looks.now.tree.now (table_of looks.now.table.now) write read) (map op_in
        reached.now.list))) }
{
    let count = count_before(looks, read, reached.list());
    let value = value_at(reached.values(), count);
    Said::Safe { word, value }
}

fn value_at(values: &[u32], count: usize) -> u32
    ensures { result ≡ get_or values.now count 0 }
{
    match values.get(count) {
        Some(value) => *value,
        None => 0,
    }
}

/// The first that is neither before the read nor behind it.
fn first_beside(looks: &Looks, read: OpId, runs: &[WordWrites]) -> Option<OpId>
    requires seen { IsSeen looks.now.tree.now looks.now.table.now looks.now.writers.now
        looks.now.polls.now }
    requires runs { AreChained looks.now.tree.now (table_of looks.now.table.now) runs.now }
    ensures { result ≡ find (is_beside looks.now.tree.now (table_of looks.now.table.now) read) (map
        op_in (joined runs.now)) }
{
    for run in runs {
        if let Some(beside) = beside_in(looks, read, run.as_slice()) {
            return Some(beside);
        }
    }
    None
}

/// The first of a run that is so: it is the first that is not before the read, or none.
fn beside_in(looks: &Looks, read: OpId, run: &[WordWrite]) -> Option<OpId>
    requires seen { IsSeen looks.now.tree.now looks.now.table.now looks.now.writers.now
        looks.now.polls.now }
    requires run { is_chained looks.now.tree.now (table_of looks.now.table.now) (map op_in run.now)
        ≡ true }
    ensures { result ≡ find (is_beside looks.now.tree.now (table_of looks.now.table.now) read) (map
        op_in run.now) }
{
    match run.get(count_before(looks, read, run)) {
        Some(write) if !looks.table.is_before(read, write.op) => Some(write.op),
        _ => None,
    }
}

/// How many of a run are before the read, from the first on. It takes a binary search.
fn count_before(looks: &Looks, read: OpId, run: &[WordWrite]) -> usize
    requires seen { IsSeen looks.now.tree.now looks.now.table.now looks.now.writers.now
        looks.now.polls.now }
    requires run { is_chained looks.now.tree.now (table_of looks.now.table.now) (map op_in run.now)
        ≡ true }
    ensures count { result ≡ prefix_len (λ write. is_before looks.now.tree.now (table_of
        looks.now.table.now) write read) (map op_in run.now) }
    ensures within { result ≤ length run.now }
{
    run.partition_point(|write| is_before(looks.table, write.op, read))
}

/// Of a read that no write stands beside.
fn said_by_order(
    alloc: Global,
    looks: &Looks,
    word: Word,
    read: OpId,
    members: &[WordWrite],
) -> Result<Said, NoMemory>
    requires seen { IsSeen looks.now.tree.now looks.now.table.now looks.now.writers.now
        looks.now.polls.now }
    requires members { AllByRecursion (IsWordWrite looks.now.tree.now (dword word)) members.now }
    ensures { IfOk result (λ said. verdict said ≡ said_open looks.now.tree.now (table_of
        looks.now.table.now) (dword word) (filter (λ write. is_before looks.now.tree.now (table_of
        looks.now.table.now) write read) (map op_in members.now))) }
{
    let before = members_before(alloc, looks, read, members)?;
    said_of_before(alloc, looks, word, before.as_slice())
}

/// Those before the read.
fn members_before(
    alloc: Global,
    looks: &Looks,
    read: OpId,
    members: &[WordWrite],
) -> Result<Vec<WordWrite>, NoMemory>
    requires { KeepsPolls looks.now.tree.now looks.now.table.now }
    ensures { IfOk result (λ list. list.items ≡ filter (λ write. is_before looks.now.tree.now
        (table_of looks.now.table.now) write.op read) members.now) }
{
    let list = members
        .iter()
        .copied()
        .filter(|write| looks.table.is_before(write.op, read))
        .collect(alloc)?;
    Ok(list)
}

/// By the writes before the read.
fn said_of_before(
    alloc: Global,
    looks: &Looks,
    word: Word,
    before: &[WordWrite],
) -> Result<Said, NoMemory>
    requires seen { IsSeen looks.now.tree.now looks.now.table.now looks.now.writers.now
        looks.now.polls.now }
    requires writes { AllByRecursion (IsWordWrite looks.now.tree.now (dword word)) before.now }
    ensures { IfOk result (λ said. verdict said ≡ said_open looks.now.tree.now (table_of
        looks.now.table.now) (dword word) (map op_in before.now)) }
{
    let beside = open_among(alloc, looks, before)?;
    said_with(alloc, looks, word, before, beside)
}

/// By the first of them that some other is not settled with.
fn said_with(
    alloc: Global,
    looks: &Looks,
    word: Word,
    before: &[WordWrite],
    beside: Option<OpId>,
) -> Result<Said, NoMemory>
    requires seen { IsSeen looks.now.tree.now looks.now.table.now looks.now.writers.now
        looks.now.polls.now }
    requires writes { AllByRecursion (IsWordWrite looks.now.tree.now (dword word)) before.now }
    ensures { IfOk result (λ said. verdict said ≡ said_with looks.now.tree.now (table_of
        looks.now.table.now) (dword word) (map op_in before.now) beside) }
{
    match beside {
        Some(beside) => Ok(Said::Unsafe { word, beside }),
        None => {
            let board = looks.tree.board();
            let value = value_of(alloc, board, looks.table, word, before)?;
            Ok(Said::Safe { word, value })
        }
    }
}

/// The first that some other of them is not settled with: none where they land in one order.
fn open_among(alloc: Global, looks: &Looks, writes: &[WordWrite]) -> Result<Option<OpId>, NoMemory>
    requires seen { IsSeen looks.now.tree.now looks.now.table.now looks.now.writers.now
        looks.now.polls.now }
    ensures { IfOk result (λ found. found ≡ find (is_open looks.now.tree.now (table_of
        looks.now.table.now) (map op_in writes.now)) (map op_in writes.now)) }
{
    let board = looks.tree.board();
    let runs = runs_of(alloc, board, looks.table, writes)?;
    let list = in_order(alloc, board, looks.table, runs.as_slice())?;
    let chained = is_chained(board, looks.table, list.as_slice());
    Ok(open_unless(looks, chained, runs.as_slice()))
}

ghost use Rattle.std.specs.Prelude.{◌≡◌, ◌≤◌, [], IfOk, OnOk, List, length};
ghost use Rattle.std.specs.List.{list_all};
ghost use Rattle.safe_model.specs.Raisers.{is_whole};
ghost use Rattle.board_writes.specs.declared.writers.write.WordWrite.{WordWrite};
ghost use Rattle.board_writes.specs.Looks.{is_behind};
ghost use Rattle.board_writes.specs.Polls.{is_clean_write};
ghost use Rattle.board_writes.specs.Stretches.{Stretch, AreStretchesOf, PartsAt};
ghost use Rattle.board_writes.specs.Stretches.{end_of, goes_on, pushed, is_from};
ghost use Rattle.board_writes.specs.Stretches.{early_values, shared_bits};
ghost use Rattle.std.specs.Option.{option_copied};

use crate::polls::{Awaited, enabled};
use crate::writers::run::Run;
use crate::writers::write::WordWrite;
use pci_command::NoMemory;
use std::alloc::Global;
use std::cell::Cell;
use std::marker::Model;

/// Writes of one dword as stretches, in each of which they are of one master, one behind another in
/// its program; the values of those of which the dword is not the last; the bits that each of them
/// writes; and a guess at a stretch that is to be looked at first, of which nothing is claimed.
#[derive(Debug, Drop)]
pub(crate) struct Stretches {
    runs: Vec<Run>,
    early: Vec<u32>,
    bits: u32,
    guess: Cell<usize>,
}

impl Model for Stretches {
    ghost use Rattle.std.specs.Prelude.{List};
    ghost use Rattle.board_writes.specs.declared.writers.write.WordWrite.{WordWrite};
    ghost use Rattle.board_writes.specs.Stretches.{joined};
    ghost use Rattle.board_writes.specs.Stretches.{AreSummed};

    ghost Value = { List WordWrite };

    ghost view = { λ k. joined k.runs.items };

    ghost invariant = { λ k. AreSummed k.runs.items k.early.items k.bits };
}

impl Stretches {
    /// The stretches.
    pub(crate) fn runs(&self) -> &[Run]
        ensures { AreStretchesOf self.now result.now }
    {
        self.runs.as_slice()
    }

    /// Whether each of them is clean.
    pub(crate) fn are_clean(&self, awaited: &Awaited) -> bool
        ensures { result ≡ list_all (is_clean_write awaited.now) self.now }
    {
        covers(self.bits, awaited.want.mask) && !awaited.is_any_met(self.early.as_slice())
    }

    /// Which stretch to look at first.
    pub(crate) fn guess(&self) -> usize {
        self.guess.get()
    }

    /// From now on this one, if it is one.
    pub(crate) fn guess_next(&self, place: Option<usize>) {
        if let Some(place) = place {
            self.guess.set(place);
        }
    }
}

/// The write is put behind the last stretch, or begins one.
fn push(runs: &mut Vec<Run>, alloc: Global, write: WordWrite) -> Result<(), NoMemory>
    ensures { OnOk result (runs.new.items ≡ pushed write runs.old.items) }
{
    let count = runs.len();
    if count > 0 && goes_on(runs[count - 1].as_slice(), &write) {
        runs[count - 1].push(write)
    } else {
        runs.push(Run::one(alloc, write)?)?;
        Ok(())
    }
}

/// Whether the write stands behind the last of these in one program.
fn goes_on(run: &[WordWrite], write: &WordWrite) -> bool
    ensures { result ≡ goes_on write.now (end_of run.now) }
{
    match run.last() {
        Some(last) => is_behind(last, write),
        None => false,
    }
}

/// Whether a write is an earlier one of the same master.
pub(crate) fn is_behind(first: &WordWrite, second: &WordWrite) -> bool
    ensures { result ≡ is_behind first.now second.now }
{
    first.op.master == second.op.master && first.op.index < second.op.index
}

/// These writes as stretches.
pub(crate) fn stretches_of(alloc: Global, writes: &[WordWrite]) -> Result<Stretches, NoMemory>
    ensures { IfOk result (λ list. list ≡ writes.now) }
{
    let mut runs = Vec::new(alloc);
    push_all(&mut runs, alloc, writes)?;
    let early = early_values(alloc, writes)?;
    Ok(Stretches {
        runs,
        early,
        bits: shared_bits(writes),
        guess: Cell::new(0),
    })
}

/// The values of those of which the dword is not the last.
fn early_values(alloc: Global, writes: &[WordWrite]) -> Result<Vec<u32>, NoMemory>
    ensures { IfOk result (λ values. values.items ≡ early_values writes.now) }
{
    let values = writes
        .iter()
        .filter(|write| !write.last)
        .map(|write| write.value())
        .collect(alloc)?;
    Ok(values)
}

/// The bits that each of the writes writes.
fn shared_bits(writes: &[WordWrite]) -> u32
    ensures { result ≡ shared_bits writes.now }
{
    let mut bits = 0xffff_ffff;
    for write in writes {
        bits &= enabled(write.phase);
    }
    bits
}

/// Whether each of the writes that write no less than these bits writes all that the mask looks at.
fn covers(bits: u32, mask: u32) -> bool
    ensures { (writes : List WordWrite) → bits ≡ shared_bits writes →
        result ≡ list_all (λ w. is_whole mask w.phase) writes }
{
    bits & mask == mask
}

fn push_all(runs: &mut Vec<Run>, alloc: Global, writes: &[WordWrite]) -> Result<(), NoMemory>
    requires { runs.old.items ≡ [] }
    ensures { OnOk result (AreStretchesOf writes.now runs.new.items) }
{
    for write in writes {
        push(runs, alloc, *write)?;
    }
    Ok(())
}

/// How many of a stretch have an index below this. Where not all or none have, it takes a binary
/// search.
pub(crate) fn count_below(run: &[WordWrite], bound: usize) -> usize
    requires { Stretch run.now }
    ensures within { result ≤ length run.now }
    ensures parts { PartsAt bound run.now result }
{
    if is_from(run.first(), bound) {
        0
    } else if is_from(run.last(), bound) {
        point_below(run, bound)
    } else {
        run.len()
    }
}

/// Whether there is no write here that has an index below this.
fn is_from(write: Option<&WordWrite>, bound: usize) -> bool
    ensures { result ≡ is_from (option_copied write.entry) bound }
{
    match write {
        Some(write) => bound <= usize::from(write.op.index),
        None => true,
    }
}

fn point_below(run: &[WordWrite], bound: usize) -> usize
    requires { Stretch run.now }
    ensures within { result ≤ length run.now }
    ensures parts { PartsAt bound run.now result }
{
    run.partition_point(|write| usize::from(write.op.index) < bound)
}

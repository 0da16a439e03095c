ghost use Rattle.std.specs.Prelude.{◌≡◌, ◌++◌, ◌∷◌, [], length, filter};
ghost use Rattle.std.specs.Prelude.{max, if◌then◌else◌, IfOk, OnOk};
ghost use Rattle.list_facts.specs.Lists.{greatest};
ghost use Rattle.audit_clocks.specs.Rows.{number, own, Raises};
ghost use Rattle.audit_clocks.specs.Tables.{numbers_of};
ghost use Rattle.audit_landings.specs.Told.{told_by, is_waiting, Tells, ToldOf, ToldFrom};

use audit_clocks::{Numbers, OpTable};
use pci_command::{NoMemory, OpId};
use std::alloc::Global;

/// What the landings of one dword tell that were looked at: what a write tells stays as it is once
/// it landed whole.
#[derive(Debug, Drop)]
pub(crate) struct Told {
    /// How many landings were looked at, from the first on.
    pub(crate) count: usize,
    /// What those of them tell that landed whole.
    pub(crate) numbers: Numbers,
    /// The others: a part of them landed.
    pub(crate) waiting: Vec<OpId>,
}

/// What is kept of a dword, or else that none of its landings was looked at.
pub(crate) fn told_or_nothing(
    alloc: Global,
    masters: usize,
    found: Option<Told>,
) -> Result<Told, NoMemory>
    ensures { IfOk result (ToldFrom masters found) }
{
    match found {
        Some(told) => Ok(told),
        None => Ok(Told {
            count: 0,
            numbers: Numbers::none(alloc, masters)?,
            waiting: Vec::new(alloc),
        }),
    }
}

/// The landings behind those that were looked at are looked at too, and those that waited again.
pub(crate) fn told_further(
    alloc: Global,
    starts: &OpTable<Numbers>,
    whole: &OpTable<usize>,
    writes: &[OpId],
    told: Told,
) -> Result<Told, NoMemory>
    requires { ToldOf whole.now starts.now writes.now told }
    ensures stands { IfOk result (ToldOf whole.now starts.now writes.now) }
    ensures tells { IfOk result (λ next.
        Tells (length told.numbers) whole.now starts.now writes.now next.numbers) }
{
    let mut numbers = told.numbers;
    let mut waiting = Vec::new(alloc);
    tell_all(
        alloc,
        starts,
        whole,
        told.waiting.as_slice(),
        &mut numbers,
        &mut waiting,
    )?;
    let (_, new) = writes.split_at(told.count);
    tell_all(alloc, starts, whole, new, &mut numbers, &mut waiting)?;
    Ok(Told {
        count: writes.len(),
        numbers,
        waiting,
    })
}

/// What those of the writes tell that landed whole; the others wait.
#[tactic(auto, using(crate::proofs::TellLemmas::of_writes))]
fn tell_all(
    alloc: Global,
    starts: &OpTable<Numbers>,
    whole: &OpTable<usize>,
    writes: &[OpId],
    numbers: &mut Numbers,
    waiting: &mut Vec<OpId>,
) -> Result<(), NoMemory>
    ensures told { OnOk result (Raises numbers.old numbers.new (λ author.
        greatest (told_by whole.now starts.now author) writes.now)) }
    ensures waiting { OnOk result (waiting.new.items ≡
        waiting.old.items ++ filter (is_waiting whole.now) writes.now) }
{
    for op in writes {
        tell(alloc, starts, whole, *op, numbers, waiting)?;
    }
    Ok(())
}

fn tell(
    alloc: Global,
    starts: &OpTable<Numbers>,
    whole: &OpTable<usize>,
    op: OpId,
    numbers: &mut Numbers,
    waiting: &mut Vec<OpId>,
) -> Result<(), NoMemory>
    ensures told { OnOk result (Raises numbers.old numbers.new
        (λ author. told_by whole.now starts.now author op)) }
    ensures waiting { OnOk result (waiting.new.items ≡
        waiting.old.items ++ (if is_waiting whole.now op then op ∷ [] else [])) }
{
    if whole.get(op).is_some() {
        raise(alloc, starts, numbers, op);
    } else {
        waiting.push(op)?;
    }
    Ok(())
}

/// What a write tells that landed whole: what it knew as its master last presented it, and itself.
fn raise(alloc: Global, starts: &OpTable<Numbers>, numbers: &mut Numbers, op: OpId)
    ensures { Raises numbers.old numbers.new (λ author.
        max (number (numbers_of op starts.now) author) (own op author)) }
{
    match starts.get(op) {
        Some(start) => numbers.raise(start, op),
        None => numbers.raise(&Numbers::empty(alloc), op),
    }
}

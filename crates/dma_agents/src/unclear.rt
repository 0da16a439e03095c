//! Why a flag is not clear: the condition that fails, and what of the board is in its way.

ghost use Rattle.std.specs.Prelude.{◌≡◌, ◌==◌, ◌++◌, ◌∷◌, [], not, length, if◌then◌else◌};
ghost use Rattle.std.specs.Prelude.{position, IfOk, OnOk};
ghost use Rattle.pci_command.specs.declared.command.Space.TheVariants.{Mem};
ghost use Rattle.board_model.specs.Claims.{range_holds};
ghost use Rattle.board_model.specs.Requests.{phases_of};
ghost use Rattle.history_model.specs.Words.{opens_in};
ghost use Rattle.history_model.specs.Clear.{is_value};
ghost use Rattle.dma_agents.specs.Unclear.{is_sought, places_in, places, by_value, by_writes};
ghost use Rattle.dma_agents.specs.Unclear.{by_holder, by_targets, why_unclear};

use crate::Flag;
use crate::clear::{holds, is_value, opens_with, rings, some_holds, writes_part};
use board_model::{Board, Master, Op, Range, Target, is_in_ranges, request_on};
use pci_command::{NoMemory, Space};
use std::alloc::Global;
use std::slice::from_ref;

/// Where an operation stands: its master and its number in the program, both from 0.
#[derive(Clone, Copy, Debug, PartialEq, Eq)]
pub struct OpPlace {
    pub master: usize,
    pub index: usize,
}

/// Why a flag is not clear: the first of these that is so.
#[derive(Clone, Copy, Debug, PartialEq, Eq)]
pub enum Unclear {
    /// No memory range has its address.
    NoTarget,
    /// Two targets have it.
    TwoTargets,
    /// The target answers there with Target-Abort, by this of its abort ranges, from 0.
    Aborts { target: usize, range: usize },
    /// The dword opens with the value.
    OpensSo,
    /// This write there does not enable all bytes.
    WritesPart(OpPlace),
    /// This write brings the value, with other dwords.
    WritesMore(OpPlace),
    /// No write brings the value.
    NobodyWrites,
    /// These writes bring it.
    TwoWrite(OpPlace, OpPlace),
}

/// What writes are looked for at the address of a flag.
#[derive(Clone, Copy, Debug, PartialEq, Eq)]
pub enum Sought {
    /// Those that do not enable all bytes there.
    Part,
    /// Those of several dwords that bring the value.
    More,
    /// Those that bring the value.
    Value,
}

/// Why a flag is not clear, where it is not.
pub(crate) fn why_unclear(alloc: Global, board: &Board, flag: Flag) -> Result<Unclear, NoMemory>
    ensures { IfOk result (λ why. why ≡ why_unclear board.now flag) }
{
    by_targets(alloc, board, flag, board.targets.as_slice())
}

// By the first of the targets that has the address.
fn by_targets(
    alloc: Global,
    board: &Board,
    flag: Flag,
    targets: &[Target],
) -> Result<Unclear, NoMemory>
    ensures { IfOk result (λ why. why ≡ by_targets board.now flag 0 targets.now) }
{
    for (number, target) in targets.iter().enumerate() {
        if holds(target, u64::from(flag.address)) {
            return by_holder(alloc, board, flag, number, target, &targets[number + 1..]);
        }
    }
    Ok(Unclear::NoTarget)
}

// Where none of the others has it.
fn by_holder(
    alloc: Global,
    board: &Board,
    flag: Flag,
    number: usize,
    target: &Target,
    others: &[Target],
) -> Result<Unclear, NoMemory>
    ensures { IfOk result (λ why. why ≡ by_holder board.now flag number target.now others.now) }
{
    if some_holds(others, u64::from(flag.address)) {
        return Ok(Unclear::TwoTargets);
    }
    match place_of_abort(target.aborts.as_slice(), flag) {
        Some(range) => Ok(Unclear::Aborts {
            target: number,
            range,
        }),
        None if opens_so(target, flag) => Ok(Unclear::OpensSo),
        None => by_writes(alloc, board, flag),
    }
}

fn place_of_abort(ranges: &[Range], flag: Flag) -> Option<usize>
    ensures { result ≡ position (range_holds Mem flag.address) ranges.now }
{
    ranges
        .iter()
        .position(|range| is_in_range(range, u128::from(flag.address)))
}

fn is_in_range(range: &Range, address: u128) -> bool
    ensures { result ≡ range_holds Mem address range.now }
{
    is_in_ranges(from_ref(range), Space::Mem, address)
}

fn opens_so(target: &Target, flag: Flag) -> bool
    ensures { result ≡ is_value flag.value (opens_in Mem flag.address target.now) }
{
    let openings = target.openings.as_slice();
    is_value(opens_with(openings, u64::from(flag.address)), flag.value)
}

// By what the masters write at the address.
fn by_writes(alloc: Global, board: &Board, flag: Flag) -> Result<Unclear, NoMemory>
    ensures { IfOk result (λ why. why ≡ by_writes board.now flag) }
{
    let masters = board.masters.as_slice();
    if let [first, ..] = places(alloc, masters, Sought::Part, flag)?.as_slice() {
        return Ok(Unclear::WritesPart(*first));
    }
    if let [first, ..] = places(alloc, masters, Sought::More, flag)?.as_slice() {
        return Ok(Unclear::WritesMore(*first));
    }
    Ok(by_value(places(alloc, masters, Sought::Value, flag)?.as_slice()))
}

fn by_value(found: &[OpPlace]) -> Unclear
    ensures { result ≡ by_value found.now }
{
    match found {
        [] => Unclear::NobodyWrites,
        [first] => Unclear::TwoWrite(*first, *first),
        [first, second, ..] => Unclear::TwoWrite(*first, *second),
    }
}

// Where such operations stand.
fn places(
    alloc: Global,
    masters: &[Master],
    sought: Sought,
    flag: Flag,
) -> Result<Vec<OpPlace>, NoMemory>
    ensures { IfOk result (λ found. found.items ≡ places (is_sought sought flag) 0 masters.now) }
{
    let mut found = Vec::new(alloc);
    for (number, master) in masters.iter().enumerate() {
        find_places(&mut found, number, master.ops.as_slice(), sought, flag)?;
    }
    Ok(found)
}

fn find_places(
    found: &mut Vec<OpPlace>,
    master: usize,
    ops: &[Op],
    sought: Sought,
    flag: Flag,
) -> Result<(), NoMemory>
    ensures { OnOk result (found.new.items ≡
        found.old.items ++ places_in (is_sought sought flag) master 0 ops.now) }
{
    for (index, op) in ops.iter().enumerate() {
        add_place(
            found,
            OpPlace { master, index },
            is_sought(sought, flag, op),
        )?;
    }
    Ok(())
}

fn add_place(found: &mut Vec<OpPlace>, place: OpPlace, is_one: bool) -> Result<(), NoMemory>
    ensures { OnOk result (found.new.items ≡
        found.old.items ++ (if is_one then place ∷ [] else [])) }
{
    if is_one {
        found.push(place)?;
    }
    Ok(())
}

fn is_sought(sought: Sought, flag: Flag, op: &Op) -> bool
    ensures { result ≡ is_sought sought flag op.now }
{
    let address = u64::from(flag.address);
    match sought {
        Sought::Part => writes_part(op, address),
        Sought::More => rings(op, address, flag.value) != 0 && has_more(op),
        Sought::Value => rings(op, address, flag.value) != 0,
    }
}

fn has_more(op: &Op) -> bool
    ensures { result ≡ not (length (phases_of op.now) == 1) }
{
    request_on(op, 0).phases.len() != 1
}

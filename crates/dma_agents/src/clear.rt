//! Whether a flag is clear on a board.

ghost use Rattle.std.specs.Prelude.{◌≡◌, ◌+◌, ◌*◌, ◌<◌, ◌≤◌, ◌^◌, ◌∷◌, [], filter, not, length};
ghost use Rattle.std.specs.Prelude.{if◌then◌else◌};
ghost use Rattle.std.specs.List.{list_all, list_any};
ghost use Rattle.list_facts.specs.Lists.{total};
ghost use Rattle.pci_command.specs.declared.command.Space.TheVariants.{Mem};
ghost use Rattle.pci_command.specs.declared.phases.Phase.{Phase as DataPhase};
ghost use Rattle.history_model.specs.Words.{opening_word};
ghost use Rattle.history_model.specs.Clear.{is_value, phases_at, written_at, brings_value, rings};
ghost use Rattle.history_model.specs.Clear.{is_whole, holds, opens_otherwise, is_clear};
ghost use Rattle.dma_agents.specs.Written.{IsWritten};

use crate::written::Written;
use board_model::{Board, Op, Opening, Target, is_in_ranges, request_on};
use pci_command::{Command, Phase, Space};

/// Whether the address is held by one target, which opens otherwise, every write there writes whole
/// dwords, and one write of one data phase brings the value: by what the masters write.
pub(crate) fn is_clear(board: &Board, written: &Written, address: u32, value: u32) -> bool
    requires { IsWritten board.now.masters written.now }
    ensures { result ≡ is_clear board.now address value }
{
    let opens = opens_otherwise(board.targets.as_slice(), u64::from(address), value);
    let rung = written.is_rung_once(address, value);
    opens && rung
}

pub(crate) fn holds(target: &Target, address: u64) -> bool
    ensures { result ≡ holds address target.now }
{
    is_in_ranges(target.ranges.as_slice(), Space::Mem, u128::from(address))
}

pub(crate) fn some_holds(targets: &[Target], address: u64) -> bool
    ensures { result ≡ list_any (holds address) targets.now }
{
    targets.iter().any(|target| holds(target, address))
}

// One of these targets holds the address, and opens it otherwise.
#[tactic(auto, using(crate::proofs::ClearLemmas::not_here))]
fn opens_otherwise(targets: &[Target], address: u64, value: u32) -> bool
    ensures { result ≡ opens_otherwise address value (filter (holds address) targets.now) }
{
    match targets {
        [] => false,
        [target, rest @ ..] => {
            if !holds(target, address) {
                return opens_otherwise(rest, address, value);
            }
            if some_holds(rest, address) {
                return false;
            }
            opens_with_another(target, address, value)
        }
    }
}

// It does not abort there, and does not open with the value.
fn opens_with_another(target: &Target, address: u64, value: u32) -> bool
    ensures { result ≡ opens_otherwise address value (target.now ∷ []) }
{
    !is_in_ranges(target.aborts.as_slice(), Space::Mem, u128::from(address))
        && !is_value(opens_with(target.openings.as_slice(), address), value)
}

// The last of the opening words for the address, or 0.
pub(crate) fn opens_with(openings: &[Opening], address: u64) -> u32
    ensures { result ≡ opening_word Mem address 0 openings.now }
{
    let mut value = 0;
    for word in openings {
        if word.space == Space::Mem && word.address == address {
            value = word.value;
        }
    }
    value
}

#[tactic(auto, using(crate::proofs::ClearLemmas::all_bits))]
pub(crate) fn is_value(word: u32, value: u32) -> bool
    ensures { result ≡ is_value value word }
{
    word == value
}

// Whether an operation writes at the address, and not all bytes.
#[tactic(auto, using(crate::proofs::ClearLemmas::no_write_is_whole, crate::proofs::ClearLemmas::write_is_whole))]
pub(crate) fn writes_part(op: &Op, address: u64) -> bool
    ensures { result ≡ not (list_all is_whole (written_at address op.now)) }
{
    let request = request_on(op, 0);
    if request.command != Command::MemWrite {
        return false;
    }
    let at = u128::from(request.address);
    !are_dwords_whole(request.phases.as_slice(), at, address)
}

// How often an operation brings the value to the address.
#[tactic(auto, using(crate::proofs::ClearLemmas::no_write_rings, crate::proofs::ClearLemmas::write_rings))]
pub(crate) fn rings(op: &Op, address: u64, value: u32) -> u64
    ensures count { result ≡ rings address value op.now }
    ensures few { result ≤ 8 }
{
    let request = request_on(op, 0);
    if request.command != Command::MemWrite {
        return 0;
    }
    let at = u128::from(request.address);
    rings_in(request.phases.as_slice(), at, address, value)
}

// Of the data phases from `at` on, those at the address write whole dwords.
#[tactic(auto, using(crate::proofs::ClearLemmas::phases_here, crate::proofs::ClearLemmas::phases_later))]
fn are_dwords_whole(phases: &[Phase], at: u128, address: u64) -> bool
    requires { at + 4 * length phases.now < 2 ^ 128 }
    ensures { result ≡ list_all is_whole (phases_at address at phases.now) }
{
    match phases {
        [] => true,
        [phase, rest @ ..] => {
            if at == u128::from(address) && phase.enables != 15 {
                return false;
            }
            are_dwords_whole(rest, at + 4, address)
        }
    }
}

// How many of the data phases from `at` on bring the value to the address.
#[tactic(auto, using(crate::proofs::ClearLemmas::phases_here, crate::proofs::ClearLemmas::phases_later))]
fn rings_in(phases: &[Phase], at: u128, address: u64, value: u32) -> u64
    requires space { at + 4 * length phases.now < 2 ^ 128 }
    requires few { length phases.now ≤ 8 }
    ensures count { result ≡ total (λ (phase : DataPhase).
        if brings_value value phase then 1 else 0) (phases_at address at phases.now) }
    ensures few { result ≤ length phases.now }
{
    match phases {
        [] => 0,
        [phase, rest @ ..] => {
            let later = rings_in(rest, at + 4, address, value);
            if at == u128::from(address) && is_value(phase.value, value) {
                later + 1
            } else {
                later
            }
        }
    }
}

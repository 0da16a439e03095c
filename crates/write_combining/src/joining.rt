ghost use Rattle.std.specs.Prelude.{◌≡◌, ◌+◌, ◌-◌, ◌≤◌, [], ◌∷◌, length, IfSome};
ghost use Rattle.std.specs.Option.{option_map};
ghost use Rattle.std.specs.List.{list_any};
ghost use Rattle.pci_command.specs.declared.command.Space.TheVariants.{Mem};
ghost use Rattle.board_model.specs.WellFormed.{is_burst_in};
ghost use Rattle.write_combining.specs.Writes.{memory_write};
ghost use Rattle.write_combining.specs.Joins.{may_combine, may_merge, is_prefetchable, join_writes};
ghost use Rattle.write_combining.specs.Joins.{join_of};
ghost use Rattle.write_combining.specs.Views.{write_of};
ghost use Rattle.write_combining.specs.Kept.{KeepsPair};

use crate::joined_brings_the_same;
use crate::merge::{are_apart, chained, merged_phase, shared};
use board_model::{Board, MOST_DWORDS, Op, window_holds};
use pci_command::{Command, Phase, Phases};

/// A memory write of a program: the address of its first dword, and its data phases.
#[derive(Clone, Copy)]
pub(crate) struct Write<'a> {
    pub(crate) address: u64,
    pub(crate) phases: &'a Phases,
}

/// The write that two neighbouring operations are joined into, in front of the buses of the board:
/// it brings the same bytes in the same order as the two. There is none exactly where neither
/// combining nor merging allows it. Any two operations may be asked, also such as no board has.
pub fn join(board: &Board, earlier: &Op, later: &Op) -> Option<Op>
    ensures joined { result ≡ join_of board.now earlier.now later.now }
    ensures bytes { IfSome result (KeepsPair earlier.now later.now) }
{
    joined_brings_the_same();
    joined(board, earlier, later)
}

fn joined(board: &Board, earlier: &Op, later: &Op) -> Option<Op>
    ensures { result ≡ join_of board.now earlier.now later.now }
{
    let earlier = memory_write(earlier)?;
    let later = memory_write(later)?;
    let phases = joined_phases(board, &earlier, &later)?;
    Some(Op::Write {
        command: Command::MemWrite,
        address: earlier.address,
        phases,
    })
}

/// The operation as a memory write, if it is one.
fn memory_write(op: &Op) -> Option<Write<'_>>
    ensures { option_map write_of result ≡ memory_write op.now }
{
    match op {
        Op::Write {
            command,
            address,
            phases,
        } if command.code() == Command::MemWrite.code() => Some(Write {
            address: *address,
            phases,
        }),
        _ => None,
    }
}

fn joined_phases(board: &Board, earlier: &Write<'_>, later: &Write<'_>) -> Option<Phases>
    ensures { option_map (λ phases. record { address = earlier.now.address; phases = phases })
        result
        ≡ join_writes board.now (write_of earlier.now) (write_of later.now) }
{
    let before = earlier.phases.as_slice();
    let behind = later.phases.as_slice();
    if may_combine(earlier, later) {
        return Some(chained(before, behind));
    }
    let (last, front) = before.split_last()?;
    let (first, rest) = behind.split_first()?;
    if may_merge(board, earlier, later, last, first) {
        Some(shared(front, merged_phase(last, first), rest))
    } else {
        None
    }
}

fn may_combine(earlier: &Write<'_>, later: &Write<'_>) -> bool
    ensures { result ≡ may_combine (write_of earlier.now) (write_of later.now) }
{
    let end = u128::from(earlier.address) + 4 * earlier.phases.len() as u128;
    u128::from(later.address) == end
        && is_burst(earlier.address, earlier.phases.len() + later.phases.len())
}

fn may_merge(
    board: &Board,
    earlier: &Write<'_>,
    later: &Write<'_>,
    last: &Phase,
    first: &Phase,
) -> bool
    ensures { result ≡
        may_merge board.now (write_of earlier.now) (write_of later.now) last.now first.now }
{
    let end = u128::from(earlier.address) + 4 * earlier.phases.len() as u128;
    let phases = (earlier.phases.len() + later.phases.len()).saturating_sub(1);
    u128::from(later.address) + 4 == end
        && is_burst(earlier.address, phases)
        && is_prefetchable(board, later.address)
        && are_apart(last, first)
}

/// Whether so many dwords from an address on are one to eight, in one aligned block of 64 bytes.
fn is_burst(address: u64, phases: usize) -> bool
    requires { phases ≤ 16 }
    ensures { result ≡ is_burst_in Mem address phases }
{
    1 <= phases && phases <= MOST_DWORDS && address % 64 + 4 * phases as u64 <= 64
}

/// Whether the address lies in a prefetchable window of some bridge of the board.
fn is_prefetchable(board: &Board, address: u64) -> bool
    ensures { result ≡ is_prefetchable board.now address }
{
    let bridges = board.bridges.as_slice();
    bridges
        .iter()
        .any(|bridge| window_holds(bridge.pref, u128::from(address)))
}

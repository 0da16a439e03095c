ghost use Rattle.std.specs.Prelude.{◌≡◌, ◌+◌, ◌↔◌, IsTrue, IfOk, Some, [], not, slice_get};
ghost use Rattle.std.specs.List.{list_any};
ghost use Rattle.board_model.specs.Requests.{address_on};
ghost use Rattle.board_model.specs.WellFormed.{is_well_formed};
ghost use Rattle.law_untagged.specs.Apart.{Apart};
ghost use Rattle.law_untagged.specs.ApartTest.{is_apart};
ghost use Rattle.untagged_apart.specs.Kept.{At, Gone, GoneOr};
ghost use Rattle.untagged_apart.specs.Kept.{same_at, represents, meets_at, meets_earlier};

use crate::kept::{Kept, Spot};
use crate::meet::{have_same_request, is_delayed, ops_meet};
use board_model::{Board, Master, Op, request_on};
use board_tree::Tree;
use law_untagged::apart_is_tested;
use pci_command::NoMemory;
use std::alloc::Global;

/// Whether no lane of the tree ever takes one delayed request from two masters. Then bridges that
/// keep no local master with it have the same runs as bridges that do.
///
/// Each operation is looked at once: it is compared with those of earlier masters that have its
/// address, of which of each master those are kept that ask for something else.
pub fn apart(alloc: Global, tree: &Tree) -> Result<bool, NoMemory>
    ensures { IfOk result (λ apart. IsTrue apart ↔ Apart tree.now) }
{
    apart_is_tested();
    let mut kept = Kept::new(alloc);
    let meet = some_meet(alloc, tree.board(), &mut kept)?;
    Ok(!meet)
}

/// Whether two masters meet.
fn some_meet(alloc: Global, board: &Board, kept: &mut Kept) -> Result<bool, NoMemory>
    requires formed { IsTrue (is_well_formed board.now) }
    requires none { kept.old ≡ [] }
    ensures { IfOk result (λ meet. meet ≡ not (is_apart board.now)) }
{
    for (number, master) in board.masters.as_slice().iter().enumerate() {
        if master_meets(alloc, board, kept, number, master)? {
            return Ok(true);
        }
    }
    Ok(false)
}

/// Whether the master meets an earlier one. If not its operations are among those kept.
fn master_meets(
    alloc: Global,
    board: &Board,
    kept: &mut Kept,
    number: usize,
    master: &Master,
) -> Result<bool, NoMemory>
    requires formed { IsTrue (is_well_formed board.now) }
    requires gone { Gone board.now kept.old number 0 }
    requires is_master { slice_get board.now.masters number ≡ Some master.now }
    ensures { IfOk result (λ meets. GoneOr meets board.now kept.new (number + 1) 0) }
{
    for (index, op) in master.ops.as_slice().iter().enumerate() {
        let spot = Spot {
            master: number,
            index,
        };
        if op_meets(alloc, board, kept, spot, master.bus, op)? {
            return Ok(true);
        }
    }
    Ok(false)
}

/// Whether the operation meets one of an earlier master. If not it is among those kept, or another
/// of its master that asks for the same.
fn op_meets(
    alloc: Global,
    board: &Board,
    kept: &mut Kept,
    spot: Spot,
    on: u8,
    op: &Op,
) -> Result<bool, NoMemory>
    requires formed { IsTrue (is_well_formed board.now) }
    requires gone { Gone board.now kept.old spot.master spot.index }
    requires is_op { At board.now spot on op.now }
    ensures { IfOk result (λ meets. GoneOr meets board.now kept.new spot.master (spot.index + 1)) }
{
    if !is_delayed(op) {
        return Ok(false);
    }
    let address = first_address(op);
    let spots = kept.at(address);
    if is_represented(board, spots, spot.master, op) {
        return Ok(false);
    }
    if meets_one(board, spots, spot.master, on, op) {
        return Ok(true);
    }
    kept.keep(alloc, address, spot)?;
    Ok(false)
}

/// Its address on bus 0. Operations of one command that differ there differ on every bus.
fn first_address(op: &Op) -> u64
    ensures { result ≡ address_on op.now 0 }
{
    request_on(op, 0).address
}

/// Whether one of these is of the master and asks for the same.
fn is_represented(board: &Board, spots: &[Spot], master: usize, op: &Op) -> bool
    ensures { result ≡ list_any (represents board.now master op.now) spots.now }
{
    spots
        .iter()
        .any(|spot| represents(board, *spot, master, op))
}

fn represents(board: &Board, spot: Spot, master: usize, op: &Op) -> bool
    ensures { result ≡ represents board.now master op.now spot }
{
    spot.master == master && is_same_at(board, spot, op)
}

fn is_same_at(board: &Board, spot: Spot, op: &Op) -> bool
    ensures { result ≡ same_at op.now spot.index (slice_get board.now.masters spot.master) }
{
    match board.masters.as_slice().get(spot.master) {
        None => false,
        Some(master) => match master.ops.as_slice().get(spot.index) {
            None => false,
            Some(first) => have_same_request(first, op, 0),
        },
    }
}

/// Whether one of these is of an earlier master and meets the operation.
fn meets_one(board: &Board, spots: &[Spot], master: usize, on: u8, op: &Op) -> bool
    requires { IsTrue (is_well_formed board.now) }
    ensures { result ≡ list_any (meets_earlier board.now master on op.now) spots.now }
{
    spots
        .iter()
        .any(|spot| meets_earlier(board, *spot, master, on, op))
}

fn meets_earlier(board: &Board, spot: Spot, master: usize, on: u8, op: &Op) -> bool
    requires { IsTrue (is_well_formed board.now) }
    ensures { result ≡ meets_earlier board.now master on op.now spot }
{
    spot.master < master && meets_at(board, spot, on, op)
}

fn meets_at(board: &Board, spot: Spot, on: u8, op: &Op) -> bool
    requires { IsTrue (is_well_formed board.now) }
    ensures { result ≡
        meets_at board.now on op.now spot.index (slice_get board.now.masters spot.master) }
{
    match board.masters.as_slice().get(spot.master) {
        None => false,
        Some(master) => match master.ops.as_slice().get(spot.index) {
            None => false,
            Some(first) => ops_meet(board, master.bus, first, on, op),
        },
    }
}

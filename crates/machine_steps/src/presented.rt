ghost use Rattle.std.specs.Prelude.{◌≡◌, Some};
ghost use Rattle.std.specs.List.{find};
ghost use Rattle.std.specs.Option.{option_copied};
ghost use Rattle.board_model.specs.Requests.{reads, reads_in, both_same, same_requests, request_of};
ghost use Rattle.pci_command.specs.Same.{same_request};
ghost use Rattle.history_model.specs.Knowledge.{is_write};
ghost use Rattle.history_model.specs.World.{same_lane, same_direction, same_initiator, is_own};

use board_model::{Board, Lane, request_of};
use history_model::{By, Slot};
use pci_command::{OpId, Request};

/// An operation as an initiator presents it on a bus.
#[derive(Clone, Copy, Debug, PartialEq, Eq)]
pub struct Presented {
    pub bus: u8,
    pub by: By,
    pub op: OpId,
}

/// Whether the operation reads.
pub fn reads(board: &Board, op: OpId) -> bool
    ensures { result ≡ reads board.now op }
{
    match request_of(board, op, 0) {
        Some(request) => request.command.is_read(),
        None => false,
    }
}

/// Whether the operation is there and writes.
pub fn is_write(board: &Board, op: OpId) -> bool
    ensures { result ≡ is_write board.now op }
{
    match request_of(board, op, 0) {
        None => false,
        Some(request) => !request.command.is_read(),
    }
}

/// Whether two operations have the same request on the bus.
pub fn same_requests(board: &Board, bus: u8, a: OpId, b: OpId) -> bool
    ensures { result ≡ same_requests board.now bus a b }
{
    match request_of(board, a, bus) {
        None => false,
        Some(request) => is_request_of(board, bus, &request, b),
    }
}

fn is_request_of(board: &Board, bus: u8, request: &Request, op: OpId) -> bool
    ensures { result ≡ both_same (Some request.now) (request_of board.now op bus) }
{
    match request_of(board, op, bus) {
        None => false,
        Some(other) => same_request(request, &other),
    }
}

fn same_request(a: &Request, b: &Request) -> bool
    ensures { result ≡ same_request a.now b.now }
{
    pci_command::same_request(a, b)
}

/// The own slot among the held ones: that of the same local master with the same request on the
/// bus.
pub fn own_slot(board: &Board, presented: Presented, held: &[Slot]) -> Option<Slot>
    ensures { result ≡ find (is_own board.now presented.bus presented.by presented.op) held.now }
{
    own_one(board, presented, held).copied()
}

fn own_one<'a>(board: &Board, presented: Presented, held: &'a [Slot]) -> Option<&'a Slot>
    ensures { option_copied result ≡
        find (is_own board.now presented.bus presented.by presented.op) held.now }
{
    held.iter().find(|slot| is_own(board, presented, slot))
}

fn is_own(board: &Board, presented: Presented, slot: &Slot) -> bool
    ensures { result ≡ is_own board.now presented.bus presented.by presented.op slot.now }
{
    let Presented { bus, by, op } = presented;
    same_initiator(slot.by, slot.op, by, op) && same_requests(board, bus, slot.op, op)
}

fn same_initiator(by: By, op: OpId, other: By, of: OpId) -> bool
    ensures { result ≡ same_initiator by op other of }
{
    match (by, other) {
        (By::Master, By::Master) => op.master == of.master,
        (By::Lane(lane), By::Lane(of)) => same_lane(lane, of),
        (By::Master, By::Lane(_)) | (By::Lane(_), By::Master) => false,
    }
}

fn same_lane(a: Lane, b: Lane) -> bool
    ensures { result ≡ same_lane a b }
{
    a.bus == b.bus && a.up == b.up
}

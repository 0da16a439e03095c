ghost use Rattle.std.specs.Prelude.{◌≡◌, []};
ghost use Rattle.std.specs.Option.{option_map};
ghost use Rattle.board_model.specs.Requests.{request_of};
ghost use Rattle.board_model.specs.Ways.{address_in};
ghost use Rattle.history_model.specs.Knowledge.{reading_of};
ghost use Rattle.audit_text.specs.Notes.{word_of, read_in, read_of};

use board_model::{Board, Place, Word, request_of};
use history_model::{Event, Step};
use machine_steps::dword_address;
use pci_command::{OpId, Space};

/// A Read event at a target: its operation, the dword and its value.
#[derive(Clone, Copy)]
pub(crate) struct Read {
    pub(crate) op: OpId,
    pub(crate) target: u16,
    pub(crate) space: Space,
    pub(crate) address: u64,
    pub(crate) value: u32,
}

/// What an operation read at a target: the dword and its value, and how many data phases had landed
/// there and how many events there were before.
#[derive(Clone, Copy)]
pub(crate) struct Reading {
    pub(crate) target: u16,
    pub(crate) space: Space,
    pub(crate) address: u64,
    pub(crate) value: u32,
    pub(crate) landed: usize,
    pub(crate) events: usize,
}

/// The dword of a target.
pub(crate) fn word_of(target: u16, space: Space, address: u64) -> Word
    ensures { result ≡ word_of target space address }
{
    Word {
        target,
        space,
        address: u128::from(address),
    }
}

/// What the event reads at a target.
pub(crate) fn read_in(board: &Board, event: &Event) -> Option<Read>
    ensures { result ≡ read_in board.now event.now }
{
    match *event {
        Event::Act {
            bus,
            op,
            step: Step::Read(value),
            place: Place::Target(target),
            ..
        } => read_at(board, bus, op, value, target),
        Event::Act { .. } | Event::Arrive { .. } => None,
    }
}

fn read_at(board: &Board, bus: u8, op: OpId, value: u32, target: u16) -> Option<Read>
    ensures { result ≡
        option_map (read_of op) (reading_of target value [] (request_of board.now op bus)) }
{
    let request = request_of(board, op, bus)?;
    let space = request.command.space();
    Some(Read {
        op,
        target,
        space,
        address: dword_address(space, u128::from(request.address)) as u64,
        value,
    })
}

ghost use Rattle.std.specs.Prelude.{◌≡◌};
ghost use Rattle.std.specs.Option.{option_map};
ghost use Rattle.board_model.specs.Requests.{request_of};
ghost use Rattle.machine_steps.specs.Words.{word_at};
ghost use Rattle.untagged_run.specs.told.Knowers.{word_in};

use board_model::{Board, Place, Word, request_of};
use history_model::{Event, Step};
use machine_steps::word_read;
use pci_command::OpId;

/// The dword that the event reads at a target, if it reads one.
pub(crate) fn word_in(board: &Board, event: &Event) -> Option<Word>
    ensures { result ≡ word_in board.now event.now }
{
    match *event {
        Event::Act {
            bus,
            op,
            step: Step::Read(_),
            place: Place::Target(target),
            ..
        } => read_by(board, bus, op, target),
        Event::Act { .. } | Event::Arrive { .. } => None,
    }
}

fn read_by(board: &Board, bus: u8, op: OpId, target: u16) -> Option<Word>
    ensures { result ≡ option_map (word_at target) (request_of board.now op bus) }
{
    let request = request_of(board, op, bus)?;
    Some(word_read(&request, target))
}

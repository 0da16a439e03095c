ghost use Rattle.std.specs.Prelude.{◌<◌, ◌^◌, length, IfOk, IfErr};
ghost use Rattle.program_input.specs.Protocols.{RefusesProtocol};
ghost use Rattle.command_boards.specs.tree.Answers.{AnswersTree};

use board_outline::print_outline;
use program_input::read_protocol;
use program_status::Status;
use std::alloc::Global;

/// The outline of the board whose text these bytes are, or the text of devices on one. It is
/// refused as a text of that kind.
pub fn answer_tree(alloc: Global, input: &[u8]) -> Result<Vec<u8>, Status>
    requires { length input.now < 2 ^ 31 }
    ensures ok { IfOk result (λ text. AnswersTree input.now text.items) }
    ensures err { IfErr result (RefusesProtocol input.now) }
{
    let tree = read_protocol(alloc, input)?;
    match print_outline(alloc, tree.board()) {
        Ok(text) => Ok(text.into_vec()),
        Err(_) => Err(Status::NoMemory),
    }
}

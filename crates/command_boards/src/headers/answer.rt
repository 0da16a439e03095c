ghost use Rattle.std.specs.Prelude.{◌<◌, ◌^◌, length, IfOk, IfErr};
ghost use Rattle.program_input.specs.Boards.{RefusesBoard};
ghost use Rattle.command_boards.specs.headers.Answers.{AnswersHeaders};

use board_headers::encoding_is_read_back;
use board_printer::print_headers;
use program_input::read_tree;
use program_status::Status;
use std::alloc::Global;

/// The headers of the board whose text these bytes are. It is refused as the text of no valid
/// board.
pub fn answer_headers(alloc: Global, input: &[u8]) -> Result<Vec<u8>, Status>
    requires { length input.now < 2 ^ 31 }
    ensures ok { IfOk result (λ text. AnswersHeaders input.now text.items) }
    ensures err { IfErr result (RefusesBoard input.now) }
{
    let tree = read_tree(alloc, input)?;
    encoding_is_read_back();
    match print_headers(alloc, tree.board()) {
        Ok(text) => Ok(text.into_vec()),
        Err(_) => Err(Status::NoMemory),
    }
}

ghost use Rattle.std.specs.Prelude.{◌<◌, ◌^◌, length, IfOk, IfErr};
ghost use Rattle.program_input.specs.Boards.{RefusesBoard};
ghost use Rattle.command_boards.specs.combine.Answers.{AnswersCombine, CombinesTo};

use board_printer::print_board;
use board_roundtrip::printed_is_read;
use board_tree::Tree;
use pci_command::{List, NoMemory};
use program_input::read_tree;
use program_status::Status;
use std::alloc::Global;
use write_combining::combine;

/// The text of the board whose text these bytes are, with the memory writes of each program joined
/// (PCI Local Bus 2.2, section 3.2.6, from memory). It is refused as the text of no valid board.
pub fn answer_combine(alloc: Global, input: &[u8]) -> Result<Vec<u8>, Status>
    requires { length input.now < 2 ^ 31 }
    ensures ok { IfOk result (λ text. AnswersCombine input.now text.items) }
    ensures err { IfErr result (RefusesBoard input.now) }
{
    let tree = read_tree(alloc, input)?;
    match combined_text(alloc, &tree) {
        Ok(text) => Ok(text.into_vec()),
        Err(_) => Err(Status::NoMemory),
    }
}

fn combined_text(alloc: Global, tree: &Tree) -> Result<List<u8>, NoMemory>
    ensures { IfOk result (CombinesTo tree.now) }
{
    let board = combine(alloc, tree)?;
    printed_is_read(&board);
    print_board(alloc, &board)
}

ghost use Rattle.std.specs.Prelude.{◌≡◌, ◌≤◌, ◌<◌, ◌^◌, length, Ok, IfOk, IfErr};
ghost use Rattle.import_text.specs.Functions.{functions_read};
ghost use Rattle.program_input.specs.Boards.{ReadsBoard};
ghost use Rattle.program_input.specs.Refusals.{RefusesBy};
ghost use Rattle.command_boards.specs.import.Answers.{AnswersImport, TellsMachine, RefusesImport};
ghost use Rattle.command_boards.specs.import.Answers.{machine_refusal, IsUntold, given_up};

use board_tree::Tree;
use import_board::{import_board, is_machine};
use import_text::{Function, ReadFault, read_functions};
use pci_command::List;
use program_input::read_tree;
use program_status::Status;
use std::alloc::Global;
use text_faults::LspciFault;

/// The board text of the machine of which `lspci -vvxxx` wrote these bytes, below the least bus of
/// its least domain. Before it is answered it is read, and judged by the functions that were read:
/// it is the text of a valid board, of at most 1 MiB, and the board is that of the machine.
#[tactic(auto, using(crate::proofs::import::AnswerLemmas::read_refuses))]
pub fn answer_import(alloc: Global, input: &[u8]) -> Result<Vec<u8>, Status>
    requires { length input.now < 2 ^ 31 }
    ensures ok { IfOk result (λ text. AnswersImport input.now text.items) }
    ensures err { IfErr result (RefusesImport input.now) }
{
    let functions = functions_of(alloc, input)?;
    text_of(alloc, functions.as_slice())
}

/// The functions of which `lspci` wrote these bytes.
fn functions_of(alloc: Global, input: &[u8]) -> Result<List<Function>, Status>
    requires { length input.now < 2 ^ 31 }
    ensures ok { IfOk result (λ functions. functions_read input.now ≡ Ok functions) }
    ensures err { IfErr result (RefusesBy (machine_refusal input.now)) }
{
    match read_functions(alloc, input) {
        Ok(functions) => Ok(functions),
        Err(ReadFault::Fault(at)) => Err(Status::BadMachine {
            line: at.line,
            fault: at.fault,
        }),
        Err(ReadFault::NoMemory) => Err(Status::NoMemory),
    }
}

/// The board text of the machine of these functions, read and judged.
#[tactic(auto, using(crate::proofs::import::AnswerLemmas::of_text))]
fn text_of(alloc: Global, functions: &[Function]) -> Result<Vec<u8>, Status>
    ensures ok { IfOk result (λ text. TellsMachine functions.now text.items) }
    ensures err { IfErr result IsUntold }
{
    let text = match import_board(alloc, functions) {
        Ok(text) => text,
        Err(_) => return Err(Status::NoMemory),
    };
    let tree = read_back(alloc, text.as_slice())?;
    if !is_machine(functions, tree.board()) {
        return Err(given_up());
    }
    Ok(text.into_vec())
}

/// The valid board whose text these bytes are, which are to be written: at most 1 MiB.
#[tactic(auto, using(crate::proofs::import::AnswerLemmas::of_untold))]
fn read_back(alloc: Global, text: &[u8]) -> Result<Tree, Status>
    ensures read { IfOk result (ReadsBoard text.now) }
    ensures within { IfOk result (λ _. length text.now ≤ 2 ^ 20) }
    ensures err { IfErr result IsUntold }
{
    if text.len() > 0x10_0000 {
        return Err(given_up());
    }
    match read_tree(alloc, text) {
        Ok(tree) => Ok(tree),
        Err(status) => Err(told(status)),
    }
}

/// How it is told that what is to be written was not read.
#[tactic(auto, using(crate::proofs::import::AnswerLemmas::of_untold))]
fn told(status: Status) -> Status
    ensures { IsUntold result }
{
    match status {
        Status::NoMemory => Status::NoMemory,
        _ => given_up(),
    }
}

/// What is told where what would be written is not the text of a valid board, or the board not that
/// of the machine.
fn given_up() -> Status
    ensures { result ≡ given_up }
{
    Status::BadMachine {
        line: 0,
        fault: LspciFault::NoBoard,
    }
}

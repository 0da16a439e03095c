ghost use Rattle.std.specs.Prelude.{◌≡◌, ◌<◌, ◌^◌, length, IsTrue, IfOk, IfErr, None};
ghost use Rattle.board_model.specs.WellFormed.{is_well_formed};
ghost use Rattle.program_input.specs.Refusals.{board_refusal};
ghost use Rattle.program_input.specs.Boards.{ReadsBoard, RefusesBoard};
ghost use Rattle.program_input.specs.Boards.{RefusesTree, IsTreeOf, refusal_told};

use board_model::Board;
use board_parser::{ParseFault, parse, read_is_well_formed};
use board_tree::{Tree, TreeRefusal, validate};
use program_status::{BoardFault, Status};
use std::alloc::Global;

/// The valid board whose text these bytes are, which are fewer than 2^31.
pub fn read_tree(alloc: Global, input: &[u8]) -> Result<Tree, Status>
    requires { length input.now < 2 ^ 31 }
    ensures ok { IfOk result (ReadsBoard input.now) }
    ensures ok_refusal { IfOk result (λ _. board_refusal input.now ≡ None) }
    ensures err { IfErr result (RefusesBoard input.now) }
{
    read_is_well_formed();
    match parse(alloc, input) {
        Ok(board) => tree_of(board),
        Err(ParseFault::Fault(at)) => Err(Status::BadBoard {
            line: at.line,
            fault: BoardFault::Line(at.fault),
        }),
        Err(ParseFault::NoMemory) => Err(Status::NoMemory),
    }
}

/// The tree of a valid board, or its first fault with line 0.
pub fn tree_of(board: Board) -> Result<Tree, Status>
    requires { IsTrue (is_well_formed board) }
    ensures ok { IfOk result (IsTreeOf board) }
    ensures err { IfErr result (RefusesTree board) }
{
    match validate(board) {
        Ok(tree) => Ok(tree),
        Err(refusal) => Err(told(refusal)),
    }
}

/// How a refusal is told.
fn told(refusal: TreeRefusal) -> Status
    ensures { result ≡ refusal_told refusal }
{
    let fault = match refusal {
        TreeRefusal::Fault { fault, .. } => BoardFault::Tree(fault),
        TreeRefusal::AboveBound { bound, .. } => BoardFault::Bound(bound),
    };
    Status::BadBoard { line: 0, fault }
}

ghost use Rattle.std.specs.Prelude.{◌≡◌, ◌<◌, ◌^◌, length, Ok, IfOk, IfErr, IsTrue};
ghost use Rattle.board_model.specs.WellFormed.{is_well_formed};
ghost use Rattle.observe_log.specs.Logs.{log_read, TellsBoardOf};
ghost use Rattle.program_input.specs.Boards.{IsTreeOf};
ghost use Rattle.command_observe.specs.Logs.{ReadsLog, RefusesLog, TellsFault};

use board_model::Board;
use board_tree::Tree;
use observe_log::{LogFault, read_log, read_log_board};
use observe_told::Log;
use program_input::tree_of;
use program_status::{BoardFault, Status};
use std::alloc::Global;
use text_faults::OrNoMemory;

/// A log, and the tree of its board.
#[derive(Drop)]
pub struct TreeLog {
    pub tree: Tree,
    pub log: Log,
}

/// The log of a valid board whose text these bytes are, which are fewer than 2^31. The tree keeps
/// the board for itself, so the board part is read twice.
#[tactic(auto, using(crate::proofs::AnswerLemmas::fault_refuses))]
pub fn read_tree_log(alloc: Global, input: &[u8]) -> Result<TreeLog, Status>
    requires { length input.now < 2 ^ 31 }
    ensures ok { IfOk result (ReadsLog input.now) }
    ensures err { IfErr result (RefusesLog input.now) }
{
    match read_log(alloc, input) {
        Ok(log) => with_tree(alloc, input, log),
        Err(fault) => Err(told(fault)),
    }
}

/// The log that was read of these bytes with the tree of its board.
#[tactic(auto, using(crate::proofs::AnswerLemmas::reads_log))]
fn with_tree(alloc: Global, input: &[u8], log: Log) -> Result<TreeLog, Status>
    requires short { length input.now < 2 ^ 31 }
    requires reads { log_read input.now ≡ Ok log }
    requires formed { IsTrue (is_well_formed log.board) }
    ensures ok { IfOk result (ReadsLog input.now) }
    ensures err { IfErr result (RefusesLog input.now) }
{
    let tree = tree_of_log(alloc, input, &log)?;
    Ok(TreeLog { tree, log })
}

#[tactic(auto, using(crate::proofs::AnswerLemmas::no_board_refuses))]
fn tree_of_log(alloc: Global, input: &[u8], log: &Log) -> Result<Tree, Status>
    requires short { length input.now < 2 ^ 31 }
    requires reads { log_read input.now ≡ Ok log.now }
    ensures ok { IfOk result (IsTreeOf log.now.board) }
    ensures err { IfErr result (RefusesLog input.now) }
{
    match read_log_board(alloc, input) {
        Ok(board) => tree_of_board(board, input, log),
        Err(fault) => Err(told(fault)),
    }
}

/// The tree of the board of the log that was read of these bytes.
#[tactic(auto, using(crate::proofs::AnswerLemmas::is_log_tree, crate::proofs::AnswerLemmas::log_tree_refuses))]
fn tree_of_board(board: Board, input: &[u8], log: &Log) -> Result<Tree, Status>
    requires reads { log_read input.now ≡ Ok log.now }
    requires formed { IsTrue (is_well_formed board) }
    requires same { TellsBoardOf (Ok board) (log_read input.now) }
    ensures ok { IfOk result (IsTreeOf log.now.board) }
    ensures err { IfErr result (RefusesLog input.now) }
{
    match tree_of(board) {
        Ok(tree) => Ok(tree),
        Err(status) => Err(status),
    }
}

/// How a fault is told.
fn told(fault: OrNoMemory<LogFault>) -> Status
    ensures { TellsFault fault result }
{
    match fault {
        OrNoMemory::Fault(LogFault::Log { line, fault, .. }) => Status::BadLog { line, fault },
        OrNoMemory::Fault(LogFault::Board { line, fault }) => Status::BadBoard {
            line,
            fault: BoardFault::Line(fault),
        },
        OrNoMemory::NoMemory => Status::NoMemory,
    }
}

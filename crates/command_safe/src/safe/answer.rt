ghost use Rattle.std.specs.Prelude.{◌≡◌, ◌<◌, ◌^◌, length, map, IfOk, IfErr};
ghost use Rattle.law_untagged.specs.ApartTest.{is_apart};
ghost use Rattle.safe_model.specs.largest.Largest.{IsLargest};
ghost use Rattle.program_input.specs.Protocols.{RefusesProtocol};
ghost use Rattle.board_writes.specs.Rows.{table_of, KeepsPolls};
ghost use Rattle.board_writes.specs.Polls.{AreKept};
ghost use Rattle.safe_said.specs.AllSaid.{line};
ghost use Rattle.command_safe.specs.safe.Counts.{counts_of, ending_of};
ghost use Rattle.command_safe.specs.safe.Lines.{lines_of};
ghost use Rattle.command_safe.specs.safe.Answers.{AnswersSafe, SaysSafe};

use crate::safe::counts::{counts_of, ending_of};
use crate::safe::text::safe_text;
use board_model::Board;
use board_tree::Tree;
use law_safe::{
    ended_writes_land, lost_never_lands, nowhere_never_reads, said_safe_returns,
    said_vain_is_not_met, unreached_is_never_done,
};
use law_untagged::{apart_is_tested, apart_runs_are_alike};
use program_input::read_protocol;
use program_status::{Answered, Status};
use safe_said::{OpSaid, said_of_all};
use safe_table::{TableMade, largest_table};
use std::alloc::Global;
use untagged_apart::apart;

/// What is said of the operations of the board whose text these bytes are, or of the board of the
/// devices that they tell.
pub fn answer_safe(alloc: Global, input: &[u8]) -> Result<Answered, Status>
    requires { length input.now < 2 ^ 31 }
    ensures ok { IfOk result (λ answer. AnswersSafe input.now answer.text.items answer.ending) }
    ensures err { IfErr result (RefusesProtocol input.now) }
{
    let tree = read_protocol(alloc, input)?;
    said_of_tree(alloc, &tree)
}

/// By the largest consistent table of the board.
fn said_of_tree(alloc: Global, tree: &Tree) -> Result<Answered, Status>
    ensures ok { IfOk result (λ answer. SaysSafe tree.now answer.text.items answer.ending) }
    ensures err { IfErr result (λ status. status ≡ Status.NoMemory) }
{
    match largest_table(alloc, tree) {
        Ok(made) => said_by_table(alloc, tree, &made),
        Err(_) => Err(Status::NoMemory),
    }
}

fn said_by_table(alloc: Global, tree: &Tree, made: &TableMade) -> Result<Answered, Status>
    requires largest { IsLargest tree.now (table_of made.now.table) }
    requires polls { KeepsPolls tree.now made.now.table }
    requires kept { AreKept tree.now made.now.gathered.writers made.now.gathered.polls }
    ensures ok { IfOk result (λ answer. SaysSafe tree.now answer.text.items answer.ending) }
    ensures err { IfErr result (λ status. status ≡ Status.NoMemory) }
{
    said_safe_returns();
    lost_never_lands();
    nowhere_never_reads();
    said_vain_is_not_met();
    ended_writes_land();
    unreached_is_never_done();
    apart_runs_are_alike();
    apart_is_tested();
    // The board of a tree is valid, so that all of this holds of its runs.
    let _valid = tree.board();
    match said_of_all(alloc, tree, &made.table, &made.gathered) {
        Ok(said) => text_of(alloc, tree, said.as_slice()),
        Err(_) => Err(Status::NoMemory),
    }
}

fn text_of(alloc: Global, tree: &Tree, said: &[OpSaid]) -> Result<Answered, Status>
    requires { length said.now < 2 ^ 32 }
    ensures written { IfOk result (λ answer. answer.text.items
        ≡ lines_of tree.now (map line said.now) (is_apart tree.now)) }
    ensures ends { IfOk result (λ answer. answer.ending
        ≡ ending_of (counts_of (map line said.now))) }
    ensures err { IfErr result (λ status. status ≡ Status.NoMemory) }
{
    apart_is_tested();
    match apart(alloc, tree) {
        Ok(apart) => text_with(alloc, tree.board(), said, apart),
        Err(_) => Err(Status::NoMemory),
    }
}

fn text_with(alloc: Global, board: &Board, said: &[OpSaid], apart: bool) -> Result<Answered, Status>
    requires { length said.now < 2 ^ 32 }
    ensures written { IfOk result (λ answer. answer.text.items
        ≡ lines_of board.now (map line said.now) apart) }
    ensures ends { IfOk result (λ answer. answer.ending
        ≡ ending_of (counts_of (map line said.now))) }
    ensures err { IfErr result (λ status. status ≡ Status.NoMemory) }
{
    let counts = counts_of(said);
    let text = safe_text(alloc, board, said, apart, counts)?;
    Ok(Answered {
        text,
        ending: ending_of(counts),
    })
}

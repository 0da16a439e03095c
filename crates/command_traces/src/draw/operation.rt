ghost use Rattle.std.specs.Prelude.{◌≡◌, ◌<◌, ◌^◌, length, string_bytes, IfOk};
ghost use Rattle.command_traces.specs.draw.Operations.{operation_word, names_word};
ghost use Rattle.command_traces.specs.draw.Operations.{with_event, rows_of_operation};

use crate::draw::rows::Rows;
use board_model::Board;
use board_tree::Tree;
use history_model::Event;
use pci_command::OpId;
use std::alloc::{AllocError, Global};
use trace_text::master_name;

/// The events from the first to the last that names an operation, of a poll any of its tries. Where
/// none does there are none, as behind the last event.
pub(crate) fn rows_of_operation(
    alloc: Global,
    tree: &Tree,
    events: &[Event],
    word: &[u8],
) -> Result<Rows, AllocError>
    requires { length events.now < 2 ^ 31 }
    ensures { IfOk result (λ rows. rows ≡ rows_of_operation tree.now events.now word.now) }
{
    let board = tree.board();
    let mut rows = Rows {
        first: events.len() as u32 + 1,
        last: events.len() as u32,
    };
    for (before, event) in events.iter().enumerate() {
        if names_word(alloc, board, word, event)? {
            let n = before as u32 + 1;
            rows = with_event(n, rows);
        }
    }
    Ok(rows)
}

/// Event number n names the operation.
fn with_event(n: u32, rows: Rows) -> Rows
    ensures { result ≡ with_event n rows }
{
    Rows {
        first: rows.first.min(n),
        last: n,
    }
}

/// Whether an event is an act of the operation that a word names.
fn names_word(alloc: Global, board: &Board, word: &[u8], event: &Event) -> Result<bool, AllocError>
    ensures { IfOk result (λ names. names ≡ names_word board.now word.now event.now) }
{
    match *event {
        Event::Act { op, .. } => Ok(operation_word(alloc, board, op)?.as_bytes() == word),
        Event::Arrive { .. } => Ok(false),
    }
}

/// The operation as NAME.INDEX, of a poll without its try.
#[tactic(auto, unfolding(crate::specs::draw::Operations::operation_word))]
fn operation_word(alloc: Global, board: &Board, op: OpId) -> Result<String, AllocError>
    ensures { IfOk result (λ name. string_bytes name ≡ operation_word board.now op) }
{
    format!(in alloc; "{}.{}", master_name(board, op.master), op.index)
}

ghost use Rattle.std.specs.Prelude.{◌≡◌, ◌<◌, ◌^◌, ℕ, List, length, IfOk, IfErr};
ghost use Rattle.history_model.specs.Runs.{Run, history_of};
ghost use Rattle.program_input.specs.Traces.{ReadsTree};
ghost use Rattle.draw_told.specs.Closes.{allowed_in};
ghost use Rattle.draw_page.specs.Pages.{ShowsPage};
ghost use Rattle.command_traces.specs.draw.Rows.{first_of_all, first_row, last_row};
ghost use Rattle.command_traces.specs.draw.Rows.{drawn_count, rows_asked};
ghost use Rattle.command_traces.specs.draw.Operations.{operation_asked};
ghost use Rattle.command_traces.specs.draw.Answers.{AnswersDraw, RefusesDraw};
ghost use Rattle.command_traces.specs.draw.Answers.{DrawsRows, HidesRows, ending_of};

use crate::draw::operation::rows_of_operation;
use crate::draw::rows::Rows;
use crate::draw::shown::shown_of;
use board_tree::Tree;
use draw_page::drawn_page;
use draw_told::Close;
use history_model::Event;
use pci_command::{List, NoMemory};
use program_input::{TreeTrace, read_tree_trace};
use program_status::{Answered, Status};
use std::alloc::Global;

/// No more events than these are drawn.
const MOST: u32 = 4096;

/// The page of a trace text: of a run, or up to the first event not allowed; of all or these rows.
pub fn answer_draw(alloc: Global, input: &[u8], rows: Option<Rows>) -> Result<Answered, Status>
    requires { length input.now < 2 ^ 31 }
    ensures ok { IfOk result (λ page.
        AnswersDraw input.now (rows_asked rows) page.text.items page.ending) }
    ensures err { IfErr result (RefusesDraw input.now (rows_asked rows)) }
{
    let read = read_tree_trace(alloc, input)?;
    draw_rows(alloc, &read, rows)
}

/// The same of the events of one operation.
pub fn answer_draw_operation(alloc: Global, input: &[u8], word: &[u8]) -> Result<Answered, Status>
    requires { length input.now < 2 ^ 31 }
    ensures ok { IfOk result (λ page.
        AnswersDraw input.now (operation_asked word.now) page.text.items page.ending) }
    ensures err { IfErr result (RefusesDraw input.now (operation_asked word.now)) }
{
    let read = read_tree_trace(alloc, input)?;
    draw_operation(alloc, &read, word)
}

/// The page of what was read, of all or these rows.
fn draw_rows(alloc: Global, read: &TreeTrace, rows: Option<Rows>) -> Result<Answered, Status>
    requires { length read.now.events < 2 ^ 32 }
    ensures ok { (input : List ℕ) → ReadsTree input read.now → IfOk result (λ page.
        AnswersDraw input (rows_asked rows) page.text.items page.ending) }
    ensures err { (input : List ℕ) → ReadsTree input read.now →
        IfErr result (RefusesDraw input (rows_asked rows)) }
{
    let shown = shown_of(alloc, &read.tree, read.events.as_slice())?;
    answer_rows(alloc, &read.tree, shown.events, shown.close, rows)
}

/// The same of the events of one operation.
fn draw_operation(alloc: Global, read: &TreeTrace, word: &[u8]) -> Result<Answered, Status>
    requires { length read.now.events < 2 ^ 32 }
    ensures ok { (input : List ℕ) → ReadsTree input read.now → IfOk result (λ page.
        AnswersDraw input (operation_asked word.now) page.text.items page.ending) }
    ensures err { (input : List ℕ) → ReadsTree input read.now →
        IfErr result (RefusesDraw input (operation_asked word.now)) }
{
    let shown = shown_of(alloc, &read.tree, read.events.as_slice())?;
    let rows = rows_of_operation(alloc, &read.tree, shown.events, word)?;
    answer_rows(alloc, &read.tree, shown.events, shown.close, Some(rows))
}

fn answer_rows(
    alloc: Global,
    tree: &Tree,
    events: &[Event],
    close: Close,
    rows: Option<Rows>,
) -> Result<Answered, Status>
    requires run { Run tree.now (history_of (allowed_in close events.now)) }
    requires few { length events.now < 2 ^ 31 }
    ensures ok { IfOk result (λ page.
        DrawsRows tree.now events.now close rows page.text.items page.ending) }
    ensures err { IfErr result (HidesRows events.now close rows) }
{
    let count = events.len() as u32;
    let drawn = drawn_count(close, rows, count);
    if drawn > MOST {
        let events = u64::from(drawn);
        return Err(Status::TooManyEvents { events });
    }
    match page_in_rows(alloc, tree, events, close, rows) {
        Ok(page) => Ok(Answered {
            text: page.into_vec(),
            ending: ending_of(count, close),
        }),
        Err(_) => Err(Status::NoMemory),
    }
}

fn ending_of(count: u32, close: Close) -> Status
    ensures { result ≡ ending_of count close }
{
    match close {
        Close::Ended | Close::NotEnded => Status::Done,
        Close::Refused { why, .. } => Status::DrawnTo { event: count, why },
    }
}

fn first_of_all(close: Close, count: u32) -> u32
    ensures { result ≡ first_of_all close count }
{
    match close {
        Close::Ended | Close::NotEnded => 1,
        Close::Refused { .. } => count.saturating_sub(4095).max(1),
    }
}

fn first_row(close: Close, rows: Option<Rows>, count: u32) -> u32
    ensures { result ≡ first_row close rows count }
{
    match rows {
        None => first_of_all(close, count),
        Some(rows) => rows.first,
    }
}

/// The number of the last event that is drawn.
fn last_row(rows: Option<Rows>, count: u32) -> u32
    ensures { result ≡ last_row rows count }
{
    match rows {
        None => count,
        Some(rows) => rows.last.min(count),
    }
}

/// How many events are drawn.
fn drawn_count(close: Close, rows: Option<Rows>, count: u32) -> u32
    requires { count < 2 ^ 31 }
    ensures { result ≡ drawn_count close rows count }
{
    let last = last_row(rows, count);
    (last + 1).saturating_sub(first_row(close, rows, count))
}

#[tactic(auto, using(crate::proofs::draw::AnswerLemmas::drawn_rows))]
fn page_in_rows(
    alloc: Global,
    tree: &Tree,
    events: &[Event],
    close: Close,
    rows: Option<Rows>,
) -> Result<List<u8>, NoMemory>
    requires run { Run tree.now (history_of (allowed_in close events.now)) }
    requires few { length events.now < 2 ^ 31 }
    ensures { IfOk result (λ page. ShowsPage tree.now events.now close
        (first_row close rows (length events.now)) (last_row rows (length events.now)) page) }
{
    let count = events.len() as u32;
    let first = first_row(close, rows, count);
    let last = last_row(rows, count);
    drawn_page(alloc, tree, events, close, first, last)
}

ghost use Rattle.std.specs.Prelude.{◌≡◌, ◌+◌, ◌<◌, ◌^◌, List, length, min, string_bytes, IfOk, OnOk};
ghost use Rattle.std.specs.List.{flat_map};
ghost use Rattle.history_model.specs.Runs.{Run, history_of};
ghost use Rattle.draw_items.specs.declared.journey.Journey.{Journey as Item};
ghost use Rattle.draw_told.specs.Closes.{allowed_in};
ghost use Rattle.draw_shapes.specs.Shapes.{captions_in, item_captions};
ghost use Rattle.draw_page.specs.Pages.{IsPage, ShowsPage};

use crate::known::Known;
use crate::layers::{layers_of, rows_of};
use crate::strips::print_strips;
use board_model::Board;
use board_tree::Tree;
use draw_items::{Columns, Journey, columns_of, most_of, product, sum, tries_of};
use draw_journeys::journeys_of;
use draw_shapes::{Canvas, Element, Frame, Row, frame_of, print_names};
use draw_told::{
    Brackets, Close, Title, Told, ahead_in, allowed_in, brackets_of, print_told, print_top, told_of,
};
use history_model::Event;
use pci_command::{List, NoMemory};
use std::alloc::{AllocError, Global};

/// The page of a run, complete or not, or of one and an event behind it that is not allowed, the
/// oldest first; drawn are the events from number `first` to number `last`. Its items are what the
/// lanes of the machine have in that run, at each moment of it.
pub fn drawn_page(
    alloc: Global,
    tree: &Tree,
    events: &[Event],
    close: Close,
    first: u32,
    last: u32,
) -> Result<List<u8>, NoMemory>
    requires run { Run tree.now (history_of (allowed_in close events.now)) }
    requires few { length events.now < 2 ^ 31 }
    ensures { IfOk result (λ page.
        ShowsPage tree.now events.now close first (min last (length events.now)) page) }
{
    let allowed = allowed_in(close, events);
    let told = told_of(alloc, tree, allowed)?;
    let journeys = journeys_of(alloc, tree, allowed)?;
    let tries = tries_of(alloc, allowed)?;
    let known = Known {
        board: tree.board(),
        events: allowed,
        journeys: journeys.as_slice(),
        tries: &tries,
        told: &told,
    };
    let last = last.min(events.len() as u32);
    page_from(alloc, &known, events, close, Shown { first, last })
}

/// The first and the last event that are drawn.
#[derive(Clone, Copy)]
struct Shown {
    first: u32,
    last: u32,
}

#[tactic(auto, using(crate::proofs::PageLemmas::same_page))]
fn page_from(
    alloc: Global,
    known: &Known,
    events: &[Event],
    close: Close,
    shown: Shown,
) -> Result<List<u8>, NoMemory>
    requires few { length events.now < 2 ^ 31 }
    requires fewer { length known.now.events.now < 2 ^ 31 }
    ensures { IfOk result (λ page. IsPage known.now.board.now known.now.journeys.now
        (length events.now + 1) shown.first shown.last page) }
{
    let rows = rows_of(alloc, known, events, shown.first, shown.last)?;
    let rows = rows.as_slice();
    let frame = frame_of(alloc, events.len() as u32, shown.first, shown.last, rows)?;
    let ahead = ahead_in(known.board, known.journeys, close, events);
    page_in(alloc, known, close, &frame, rows, ahead)
}

fn page_in(
    alloc: Global,
    known: &Known,
    close: Close,
    frame: &Frame,
    rows: &[Row],
    ahead: Option<Journey>,
) -> Result<List<u8>, NoMemory>
    requires few { length known.now.events.now < 2 ^ 31 }
    ensures { IfOk result (λ page. IsPage known.now.board.now known.now.journeys.now
        frame.now.end frame.now.first frame.now.last page) }
{
    let brackets = brackets_of(alloc, known.told.spans())?;
    let columns = columns_in(alloc, known.board, known.journeys, &brackets, frame)?;
    let canvas = Canvas {
        board: known.board,
        columns: &columns,
        frame,
    };
    let elements = layers_of(alloc, known, &canvas, rows, ahead, &brackets)?;
    let elements = elements.as_slice();
    let mut text = String::new(alloc);
    print_page(alloc, &mut text, &canvas, close, known.told, elements)?;
    Ok(List::from_vec(text.into_bytes()))
}

/// The columns, behind the brackets.
fn columns_in(
    alloc: Global,
    board: &Board,
    journeys: &[Journey],
    brackets: &Brackets,
    frame: &Frame,
) -> Result<Columns, NoMemory> {
    let wide = sum(product(10, brackets.count() as u64), 10);
    let start = sum(frame.told_x, wide);
    let most = most_of(alloc, journeys)?;
    columns_of(alloc, board, &most, start)
}

fn print_page(
    alloc: Global,
    text: &mut String,
    canvas: &Canvas,
    close: Close,
    told: &Told,
    elements: &[Element],
) -> Result<(), NoMemory>
    ensures { (items : List Item) → captions_in elements.now ≡
        flat_map (item_captions canvas.now.board.now canvas.now.frame.now.end
        canvas.now.frame.now.first canvas.now.frame.now.last) items →
        OnOk result (IsPage canvas.now.board.now items canvas.now.frame.now.end
        canvas.now.frame.now.first canvas.now.frame.now.last (string_bytes text.new)) }
{
    let board = canvas.board;
    let frame = canvas.frame;
    let title = Title {
        count: frame.end.saturating_sub(1),
        buses: sum(board.bridges.as_slice().len() as u64, 1),
        first: frame.first,
        last: frame.last,
        close,
    };
    print_top(text, title)?;
    print_told(text, board, told.found(), told.spans())?;
    print_head(text, board, canvas.columns)?;
    print_rows(alloc, text, canvas, elements)
}

/// The begin of the table: the columns with their names.
fn print_head(text: &mut String, board: &Board, columns: &Columns) -> Result<(), AllocError> {
    text.push_str("<table>\n<thead><tr><th>")?;
    print_names(text, board, columns)?;
    text.push_str("\n<tbody>\n")
}

/// The strips, up to the end of the table.
fn print_rows(
    alloc: Global,
    text: &mut String,
    canvas: &Canvas,
    elements: &[Element],
) -> Result<(), NoMemory>
    ensures { (items : List Item) → captions_in elements.now ≡
        flat_map (item_captions canvas.now.board.now canvas.now.frame.now.end
        canvas.now.frame.now.first canvas.now.frame.now.last) items →
        OnOk result (IsPage canvas.now.board.now items canvas.now.frame.now.end
        canvas.now.frame.now.first canvas.now.frame.now.last (string_bytes text.new)) }
{
    print_strips(alloc, text, canvas.columns, canvas.frame, elements)?;
    text.push_str("</table>\n")?;
    Ok(())
}

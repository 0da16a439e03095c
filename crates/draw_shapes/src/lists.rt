use crate::frame::Frame;
use crate::row::Row;
use board_model::Board;
use draw_elements::{Height, print_event, print_note};
use draw_items::Journey;
use history_model::{Carried, Event};
use std::alloc::{AllocError, Global};

/// An event in the list: its number, its line and what is noted behind it.
pub(crate) fn print_row(
    alloc: Global,
    text: &mut String,
    board: &Board,
    frame: &Frame,
    row: &Row,
) -> Result<(), AllocError> {
    print_number(text, frame.first, row.n, frame.number_x)?;
    print_line_open(text, frame.first, row.n, frame.text_x, row_class(row))?;
    print_event(text, board, &row.event)?;
    print_noted(alloc, text, board, row)?;
    text.push_str("</text>\n")
}

fn foot(first: u32, row: u32) -> Height {
    Height {
        first,
        row,
        down: 12,
    }
}

fn print_number(text: &mut String, first: u32, n: u32, x: u64) -> Result<(), AllocError> {
    write!(
        text,
        "<text id=\"e{n}\" class=\"n\" x=\"{x}\" y=\"{}\">{n}</text>",
        foot(first, n)
    )
}

fn print_line_open(
    text: &mut String,
    first: u32,
    n: u32,
    x: u64,
    class: &str,
) -> Result<(), AllocError> {
    write!(text, "<text{class} x=\"{x}\" y=\"{}\">", foot(first, n))
}

/// What is noted behind the line, where there is anything.
fn print_noted(
    alloc: Global,
    text: &mut String,
    board: &Board,
    row: &Row,
) -> Result<(), AllocError> {
    let mut note = String::new(alloc);
    print_note(&mut note, board, row.item, &row.event)?;
    if note.len() == 0 {
        Ok(())
    } else {
        write!(text, "<tspan class=\"c\"> {note}</tspan>")
    }
}

/// Bold for a key, else grey for a fruitless try and where a credit arrives.
fn row_class(row: &Row) -> &'static str {
    if row.key {
        " class=\"h\""
    } else if row.pale || is_credit_event(row.item, &row.event) {
        " class=\"c\""
    } else {
        ""
    }
}

fn is_credit_event(item: Option<Journey>, event: &Event) -> bool {
    match event {
        Event::Act { .. } => false,
        Event::Arrive { .. } => brings_credit(item),
    }
}

fn brings_credit(item: Option<Journey>) -> bool {
    match item {
        Some(item) => is_credit(item.carried),
        None => false,
    }
}

fn is_credit(item: Carried) -> bool {
    matches!(item, Carried::Room)
}

use board_model::Board;
use draw_elements::{print_event, print_note};
use draw_items::{Journey, product, sum};
use history_model::Event;
use std::alloc::{AllocError, Global};

/// How wide the line of the event and what is noted behind it are.
pub fn width_of(
    alloc: Global,
    board: &Board,
    item: Option<Journey>,
    event: &Event,
) -> Result<u64, AllocError> {
    let line = line_length(alloc, board, event)?;
    let note = note_length(alloc, board, item, event)?;
    Ok(product(6, noted_length(line as u64, note as u64)))
}

fn noted_length(line: u64, note: u64) -> u64 {
    if note == 0 {
        line
    } else {
        sum(line, sum(note, 1))
    }
}

fn line_length(alloc: Global, board: &Board, event: &Event) -> Result<usize, AllocError> {
    let mut line = String::new(alloc);
    print_event(&mut line, board, event)?;
    Ok(line.len())
}

fn note_length(
    alloc: Global,
    board: &Board,
    item: Option<Journey>,
    event: &Event,
) -> Result<usize, AllocError> {
    let mut note = String::new(alloc);
    print_note(&mut note, board, item, event)?;
    Ok(note.len())
}

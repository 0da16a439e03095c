use crate::close::Close;
use crate::told::Span;
use audit_text::{Found, print_found};
use board_model::Board;
use draw_items::{print_key, print_style};
use history_model::Why;
use std::alloc::AllocError;

/// What the title tells: how many events and buses there are, which events are drawn, and how they
/// end.
#[derive(Clone, Copy, Debug)]
pub struct Title {
    pub count: u32,
    pub buses: u64,
    pub first: u32,
    pub last: u32,
    pub close: Close,
}

/// The head of the page, its title, why an event is not allowed, and the key of signs.
pub fn print_top(text: &mut String, title: Title) -> Result<(), AllocError> {
    print_head(text, title)?;
    text.push_str("<h1>")?;
    print_title(text, title)?;
    text.push_str("</h1>\n")?;
    print_close_line(text, title.count, title.close)?;
    print_key(text)
}

fn print_head(text: &mut String, title: Title) -> Result<(), AllocError> {
    text.push_str(
        "<!DOCTYPE html>\n<html lang=\"en\">\n<meta charset=\"utf-8\">\n\
        <meta name=\"viewport\" content=\"width=device-width\">\n<title>pcitree: ",
    )?;
    print_title(text, title)?;
    text.push_str("</title>\n<style>\n")?;
    print_style(text)?;
    text.push_str("</style>\n")
}

fn print_title(text: &mut String, title: Title) -> Result<(), AllocError> {
    write!(text, "events {}, buses {}", title.count, title.buses)?;
    print_drawn(text, title.count, title.first, title.last)?;
    print_close(text, title.count, title.close)
}

/// How the run ends, where it does not end well.
fn print_close(text: &mut String, count: u32, close: Close) -> Result<(), AllocError> {
    match close {
        Close::Ended => Ok(()),
        Close::NotEnded => text.push_str(", not ended"),
        Close::Refused { .. } => write!(text, ", refused at {count}"),
    }
}

fn print_close_line(text: &mut String, count: u32, close: Close) -> Result<(), AllocError> {
    match close {
        Close::Ended | Close::NotEnded => Ok(()),
        Close::Refused { why, sentence } => print_cause(text, count, why, sentence),
    }
}

/// Why the last event is not allowed.
fn print_cause(text: &mut String, count: u32, why: Why, sentence: &str) -> Result<(), AllocError> {
    writeln!(
        text,
        "<p class=\"x\">event {count} is not allowed: {why}: {sentence}</p>"
    )
}

/// Which events are drawn, where these are not all.
fn print_drawn(text: &mut String, count: u32, first: u32, last: u32) -> Result<(), AllocError> {
    if first == 1 && last == count {
        Ok(())
    } else {
        write!(text, ", drawn {first} to {last}")
    }
}

/// The lines of the audit, where there is one.
pub fn print_told(
    text: &mut String,
    board: &Board,
    found: &[Found],
    spans: &[Span],
) -> Result<(), AllocError> {
    if found.len() == 0 {
        Ok(())
    } else {
        print_told_lines(text, board, found, spans)
    }
}

fn print_told_lines(
    text: &mut String,
    board: &Board,
    found: &[Found],
    spans: &[Span],
) -> Result<(), AllocError> {
    let count = found.len();
    let open = if count <= 8 { " open" } else { "" };
    write!(
        text,
        "<details{open}><summary>told {count}</summary>\n<ol>\n"
    )?;
    for (one, span) in found.iter().zip(spans.iter()) {
        print_line(text, board, one, *span)?;
    }
    text.push_str("</ol></details>\n")
}

/// A line, with links to its rows.
fn print_line(text: &mut String, board: &Board, one: &Found, span: Span) -> Result<(), AllocError> {
    text.push_str("<li><code>")?;
    print_found(text, board, one)?;
    text.push_str("</code>: landed at ")?;
    print_link(text, span.landed)?;
    text.push_str(", read at ")?;
    print_link(text, span.read)?;
    text.push_str("\n")
}

fn print_link(text: &mut String, n: u32) -> Result<(), AllocError> {
    write!(text, "<a href=\"#e{n}\">{n}</a>")
}

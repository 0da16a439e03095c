use draw_elements::{Height, faint, print_circle, print_head, row_middle};
use draw_items::Wait;
use std::alloc::AllocError;

/// A mark of this class behind the line of an event, from a place on and so wide.
pub(crate) fn print_mark(
    text: &mut String,
    class: &str,
    first: u32,
    n: u32,
    x: u64,
    size: u64,
) -> Result<(), AllocError> {
    print_mark_open(text, class, first, n, x)?;
    print_mark_size(text, size)
}

fn print_mark_open(
    text: &mut String,
    class: &str,
    first: u32,
    n: u32,
    x: u64,
) -> Result<(), AllocError> {
    let top = Height {
        first,
        row: n,
        down: 0,
    };
    write!(text, "<path class=\"{class}\" d=\"M{x} {top}")
}

fn print_mark_size(text: &mut String, size: u64) -> Result<(), AllocError> {
    writeln!(text, "h{size}v16h-{size}z\"/>")
}

/// A dotted line in a row.
pub(crate) fn print_dotted(
    text: &mut String,
    first: u32,
    n: u32,
    x: u64,
    to: u64,
) -> Result<(), AllocError> {
    let y = row_middle(first, n);
    writeln!(text, "<path class=\"u\" d=\"M{x} {y}H{to}\"/>")
}

/// The bar of a master that waits.
pub(crate) fn print_wait(
    text: &mut String,
    first: u32,
    x: u64,
    pale: bool,
    wait: &Wait,
) -> Result<(), AllocError> {
    text.push_str("<path class=\"w")?;
    text.push_str(faint(pale))?;
    print_wait_bar(text, first, x, wait)
}

fn print_wait_bar(text: &mut String, first: u32, x: u64, wait: &Wait) -> Result<(), AllocError> {
    writeln!(
        text,
        "\" d=\"M{x} {}V{}\"/>",
        row_middle(first, wait.first),
        row_middle(first, wait.last)
    )
}

/// Where a bracket goes: from `x` out to the right in the row of the landing, and back to its tip
/// in that of the read.
#[derive(Clone, Copy)]
pub(crate) struct BracketWay {
    pub(crate) x: u64,
    pub(crate) right: u64,
    pub(crate) tip: u64,
    pub(crate) landed: u32,
    pub(crate) read: u32,
}

/// The bracket of a line of the audit.
pub(crate) fn print_bracket(
    text: &mut String,
    first: u32,
    way: BracketWay,
) -> Result<(), AllocError> {
    print_bracket_title(text, way.landed, way.read)?;
    print_bracket_path(text, first, way)?;
    print_circle(text, first, way.landed, way.x, 4)?;
    print_head(text, first, way.read, way.x, false)?;
    text.push_str("</g>\n")
}

fn print_bracket_title(text: &mut String, landed: u32, read: u32) -> Result<(), AllocError> {
    write!(
        text,
        "<g class=\"b\"><title>landed {landed}, read {read}</title>"
    )
}

fn print_bracket_path(text: &mut String, first: u32, way: BracketWay) -> Result<(), AllocError> {
    let y = row_middle(first, way.landed);
    write!(text, "<path d=\"M{} {y}", way.x)?;
    print_bracket_down(text, first, way.right, way.read, way.tip)
}

fn print_bracket_down(
    text: &mut String,
    first: u32,
    right: u64,
    read: u32,
    tip: u64,
) -> Result<(), AllocError> {
    write!(text, "H{right}V{}H{tip}\"/>", row_middle(first, read))
}

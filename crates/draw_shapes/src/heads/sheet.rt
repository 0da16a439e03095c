use draw_items::{Band, Column, Columns, product};
use std::alloc::AllocError;

/// The begin of a strip from one height to another: its size, the columns and the lines.
pub fn print_sheet(
    text: &mut String,
    columns: &Columns,
    low: u64,
    high: u64,
) -> Result<(), AllocError> {
    print_open(text, low, columns.width(), high.saturating_sub(low))?;
    print_bands_text(text, low, high, columns.bands())?;
    print_lines_text(text, low, high, columns.lines())
}

/// A picture of this size from a height on.
pub(crate) fn print_open(
    text: &mut String,
    low: u64,
    width: u64,
    height: u64,
) -> Result<(), AllocError> {
    print_box(text, low, width, height)?;
    print_size(text, drawn_size(width), drawn_size(height))
}

fn drawn_size(units: u64) -> u64 {
    product(5, units) / 4
}

fn print_box(text: &mut String, low: u64, width: u64, height: u64) -> Result<(), AllocError> {
    write!(text, "<svg viewBox=\"0 {low} {width} {height}")
}

fn print_size(text: &mut String, width: u64, height: u64) -> Result<(), AllocError> {
    writeln!(text, "\" width=\"{width}\" height=\"{height}\">")
}

fn print_bands_text(
    text: &mut String,
    low: u64,
    high: u64,
    bands: &[Band],
) -> Result<(), AllocError> {
    text.push_str("<path class=\"k\" d=\"")?;
    print_bands(text, low, high, bands)?;
    text.push_str("\"/>\n")
}

fn print_bands(text: &mut String, low: u64, high: u64, bands: &[Band]) -> Result<(), AllocError> {
    for band in bands {
        print_band(text, low, high, band)?;
    }
    Ok(())
}

/// A column.
pub(crate) fn print_band(
    text: &mut String,
    low: u64,
    high: u64,
    band: &Band,
) -> Result<(), AllocError> {
    write!(
        text,
        "M{} {low}H{}V{high}H{}z",
        band.start, band.end, band.start
    )
}

fn print_lines_text(
    text: &mut String,
    low: u64,
    high: u64,
    lines: &[Column],
) -> Result<(), AllocError> {
    text.push_str("<path class=\"l\" d=\"")?;
    print_lines(text, low, high, lines)?;
    text.push_str("\"/>\n")
}

fn print_lines(text: &mut String, low: u64, high: u64, lines: &[Column]) -> Result<(), AllocError> {
    for line in lines {
        print_line(text, low, high, line)?;
    }
    Ok(())
}

/// A line.
pub(crate) fn print_line(
    text: &mut String,
    low: u64,
    high: u64,
    line: &Column,
) -> Result<(), AllocError> {
    write!(text, "M{} {low}V{high}", line.place)
}

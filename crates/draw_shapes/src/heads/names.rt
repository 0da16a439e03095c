use crate::heads::sheet::{print_band, print_line, print_open};
use board_model::Board;
use draw_items::{Band, Column, ColumnLine, Columns, print_name, product, sum};
use std::alloc::AllocError;

/// The names of the buses and of their lines.
pub fn print_names(text: &mut String, board: &Board, columns: &Columns) -> Result<(), AllocError> {
    print_names_with(text, board, columns, names_height(columns))
}

fn names_height(columns: &Columns) -> u64 {
    sum(24, product(12, columns.rows()))
}

fn print_names_with(
    text: &mut String,
    board: &Board,
    columns: &Columns,
    height: u64,
) -> Result<(), AllocError> {
    print_open(text, 0, columns.width(), height)?;
    print_buses(text, height, columns.bands())?;
    print_name_path(text, height, columns.lines())?;
    print_line_names(text, board, columns.lines())?;
    text.push_str("</svg>")
}

fn print_buses(text: &mut String, height: u64, bands: &[Band]) -> Result<(), AllocError> {
    for band in bands {
        print_bus_band(text, height, band)?;
    }
    Ok(())
}

/// A bus and its number.
fn print_bus_band(text: &mut String, height: u64, band: &Band) -> Result<(), AllocError> {
    text.push_str("<path class=\"k\" d=\"")?;
    print_band(text, 0, height, band)?;
    print_title(text, band)
}

/// The number of a bus, beside where its column begins.
fn print_title(text: &mut String, band: &Band) -> Result<(), AllocError> {
    print_bus(text, sum(band.start, 4), band.bus)
}

fn print_bus(text: &mut String, x: u64, bus: u8) -> Result<(), AllocError> {
    writeln!(
        text,
        "\"/><text class=\"h\" x=\"{x}\" y=\"12\">bus {bus}</text>"
    )
}

fn print_name_path(text: &mut String, height: u64, lines: &[Column]) -> Result<(), AllocError> {
    text.push_str("<path class=\"l\" d=\"")?;
    print_name_lines(text, height, lines)?;
    text.push_str("\"/>\n")
}

fn print_name_lines(text: &mut String, height: u64, lines: &[Column]) -> Result<(), AllocError> {
    for line in lines {
        print_name_line(text, height, line)?;
    }
    Ok(())
}

/// A line from its name down.
fn print_name_line(text: &mut String, height: u64, line: &Column) -> Result<(), AllocError> {
    let low = sum(28, product(12, line.row));
    print_line(text, low, height, line)
}

fn print_line_names(text: &mut String, board: &Board, lines: &[Column]) -> Result<(), AllocError> {
    for line in lines {
        print_line_name(text, board, line)?;
    }
    Ok(())
}

/// The name of a line, in a row of its own.
fn print_line_name(text: &mut String, board: &Board, line: &Column) -> Result<(), AllocError> {
    let y = sum(25, product(12, line.row));
    let x = line.place.saturating_sub(3);
    print_name_open(text, name_class(line.line), x, y)?;
    print_name(text, board, line.line)?;
    text.push_str("</text>\n")
}

fn print_name_open(text: &mut String, class: &str, x: u64, y: u64) -> Result<(), AllocError> {
    write!(text, "<text{class} x=\"{x}\" y=\"{y}\">")
}

/// The name of a master is bold.
fn name_class(line: ColumnLine) -> &'static str {
    match line {
        ColumnLine::Master(_) => " class=\"h\"",
        ColumnLine::Left(_) | ColumnLine::Target(_) | ColumnLine::Right(_) => "",
    }
}

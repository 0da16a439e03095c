ghost use Rattle.std.specs.Prelude.{◌≡◌, ◌+◌, ◌<◌, ◌^◌, IfOk};

use crate::row::Row;
use draw_items::{product, sum};
use pci_command::NoMemory;
use std::alloc::{AllocError, Global};

/// Which rows are drawn, and where the list of events and the brackets beside it stand.
#[derive(Clone, Copy, Debug, PartialEq, Eq)]
pub struct Frame {
    /// The first and the last row that is drawn.
    pub first: u32,
    pub last: u32,
    /// The row behind the last event.
    pub end: u32,
    /// Where the numbers end.
    pub number_x: u64,
    /// Where the list begins.
    pub text_x: u64,
    /// Where the brackets begin.
    pub told_x: u64,
}

/// Of so many events those from number `first` to number `last` are drawn, in these rows.
pub fn frame_of(
    alloc: Global,
    count: u32,
    first: u32,
    last: u32,
    rows: &[Row],
) -> Result<Frame, NoMemory>
    requires { count + 1 < 2 ^ 32 }
    ensures first { IfOk result (λ frame. frame.first ≡ first) }
    ensures last { IfOk result (λ frame. frame.last ≡ last) }
    ensures end { IfOk result (λ frame. frame.end ≡ count + 1) }
{
    let number_x = number_x(alloc, count)?;
    let text_x = sum(number_x, 10);
    let told_x = sum(text_x, sum(widest(rows), 14));
    Ok(Frame {
        first,
        last,
        end: count + 1,
        number_x,
        text_x,
        told_x,
    })
}

fn number_x(alloc: Global, count: u32) -> Result<u64, AllocError> {
    let digits = digits_of(alloc, count)?;
    Ok(sum(8, product(6, digits as u64)))
}

fn digits_of(alloc: Global, number: u32) -> Result<usize, AllocError> {
    let text = format!(in alloc; "{number}")?;
    Ok(text.len())
}

/// The greatest width of a row.
fn widest(rows: &[Row]) -> u64 {
    let mut wide = 0;
    for row in rows {
        wide = row.width.max(wide);
    }
    wide
}

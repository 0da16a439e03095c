use std::alloc::AllocError;
use std::fmt;

/// A height in a picture: so far below the upper edge of a row, 16 for each row from the first that
/// is drawn on. It is negative above that.
#[derive(Clone, Copy, Debug, PartialEq, Eq)]
pub struct Height {
    pub first: u32,
    pub row: u32,
    pub down: u8,
}

impl fmt::Display for Height {
    fn fmt<W: fmt::Write>(&self, f: &mut fmt::Formatter<W>) -> fmt::Result {
        let first = u64::from(self.first);
        let row = u64::from(self.row);
        let down = u64::from(self.down);
        if first <= row {
            write!(f, "{}", 16 * (row - first) + down)
        } else {
            write!(f, "-{}", (16 * (first - row)).saturating_sub(down))
        }
    }
}

/// The middle of a row.
pub fn row_middle(first: u32, row: u32) -> Height {
    Height {
        first,
        row,
        down: 8,
    }
}

/// A circle in the middle of a row.
pub fn print_circle(
    text: &mut String,
    first: u32,
    row: u32,
    x: u64,
    radius: u8,
) -> Result<(), AllocError> {
    let y = row_middle(first, row);
    write!(text, "<circle cx=\"{x}\" cy=\"{y}\" r=\"{radius}\"/>")
}

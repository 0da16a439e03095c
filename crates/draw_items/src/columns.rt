//! Where what a board has stands in a picture of its run: the buses side by side, and on each bus a
//! line for each master, each target and each face of a bridge.
mod columns;
mod line;
mod most;
mod order;
mod sums;

pub use columns::{Band, Column, Columns, columns_of};
pub use line::{ColumnLine, name_length, print_name};
pub use most::{Most, most_of};
pub use sums::{product, sum};

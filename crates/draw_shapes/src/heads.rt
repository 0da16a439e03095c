//! What stands behind a picture of a run: the columns and their lines, and above them their names.
mod names;
mod sheet;

pub use names::print_names;
pub use sheet::print_sheet;

//! The fixed texts of a page: its style, and the key of signs.
mod style;

pub use style::{print_key, print_style};

//! The canonical text of a board: one text for each board, line by line.
#![tactic(auto)]

mod board;
mod bridges;
mod headers;
mod masters;
mod numbers;
mod short;
mod spaces;
mod targets;

pub use board::{print_board, print_board_lines};
pub use headers::print_headers;
pub use numbers::{Address, DataWord, HexHalf, HexWord};
pub use spaces::space_word;

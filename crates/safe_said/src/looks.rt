use board_tree::Tree;
use board_writes::{ClockTable, Polls, Writers};

/// A board, a table of clocks of it, the writes of its words, and what is kept of its polls.
#[derive(Clone, Copy, Drop)]
pub(crate) struct Looks<'a> {
    pub tree: &'a Tree,
    pub table: &'a ClockTable,
    pub writers: &'a Writers,
    pub polls: &'a Polls,
}

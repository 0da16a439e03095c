use crate::frame::Frame;
use board_model::Board;
use draw_items::Columns;

/// What a picture is drawn on: the board, where its lines stand, and which rows are drawn.
#[derive(Clone, Copy)]
pub struct Canvas<'a> {
    pub board: &'a Board,
    pub columns: &'a Columns,
    pub frame: &'a Frame,
}

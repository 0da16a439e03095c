ghost use Rattle.std.specs.Prelude.{◌≡◌, ◌++◌, length, string_bytes, IfOk, OnOk};
ghost use Rattle.draw_items.specs.columns.Places.{name_of};

use board_model::{Board, Lane};
use std::alloc::{AllocError, Global};

/// What a line of a bus stands for. A face is named by the lane that ends there.
#[derive(Clone, Copy, Debug, PartialEq, Eq)]
pub enum ColumnLine {
    /// A face at the left of its bus.
    Left(Lane),
    /// The master at this place of the board.
    Master(usize),
    /// The target at this place of the board.
    Target(usize),
    /// A face at the right of its bus.
    Right(Lane),
}

/// The name of a line, behind a text.
pub fn print_name(text: &mut String, board: &Board, line: ColumnLine) -> Result<(), AllocError>
    ensures { OnOk result (string_bytes text.new ≡ string_bytes text.old ++
        name_of board.now line) }
{
    match line {
        ColumnLine::Left(lane) | ColumnLine::Right(lane) => write!(text, "bridge {}", lane.bus),
        ColumnLine::Master(master) => match board.masters.as_slice().get(master) {
            Some(agent) => text.push_str(agent.name.as_str()),
            None => Ok(()),
        },
        ColumnLine::Target(target) => match board.targets.as_slice().get(target) {
            Some(agent) => text.push_str(agent.name.as_str()),
            None => Ok(()),
        },
    }
}

/// How many letters it has.
pub fn name_length(alloc: Global, board: &Board, line: ColumnLine) -> Result<usize, AllocError>
    ensures { IfOk result (λ count. count ≡ length (name_of board.now line)) }
{
    let mut name = String::new(alloc);
    print_name(&mut name, board, line)?;
    Ok(name.len())
}

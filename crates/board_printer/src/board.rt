ghost use Rattle.std.specs.Prelude.{◌≡◌, ◌++◌, map, OnOk, string_bytes, IfOk};
ghost use Rattle.board_printer.specs.Lines.{line_text, text_of};
ghost use Rattle.board_printer.specs.Boards.{first_line, planned_line, board_text};

use crate::bridges::print_bridges;
use crate::masters::print_masters;
use crate::short::is_short_board;
use crate::spaces::direction_word;
use crate::targets::print_targets;
use board_model::{Board, Planned};
use pci_command::{List, NoMemory};
use std::alloc::{AllocError, Global};

/// The canonical text of the board.
pub fn print_board(alloc: Global, board: &Board) -> Result<List<u8>, NoMemory>
    ensures { IfOk result (λ text. text ≡ board_text board.now) }
{
    let mut text = String::new(alloc);
    print_board_lines(&mut text, board)?;
    Ok(List::from_vec(text.into_bytes()))
}

/// The same, behind a text. Where there is no memory, a part of it may stand there.
#[tactic(auto, unfolding(crate::specs::Boards::board_text))]
pub fn print_board_lines(text: &mut String, board: &Board) -> Result<(), AllocError>
    ensures { OnOk result (string_bytes text.new ≡ string_bytes text.old ++ board_text board.now) }
{
    print_first(text, board)?;
    print_bridges(text, board.bridges.as_slice())?;
    print_targets(text, board.targets.as_slice())?;
    print_masters(text, board.masters.as_slice())?;
    print_plans(text, "discard", board.discards.as_slice())?;
    print_plans(text, "drop", board.drops.as_slice())
}

fn print_first(text: &mut String, board: &Board) -> Result<(), AllocError>
    ensures { OnOk result
        (string_bytes text.new ≡ string_bytes text.old ++ line_text (first_line board.now)) }
{
    if is_short_board(board) {
        text.push_str("pciboard 1\n")
    } else {
        text.push_str("pciboard 2\n")
    }
}

fn print_plans(text: &mut String, word: &str, plans: &[Planned]) -> Result<(), AllocError>
    ensures { OnOk result
        (string_bytes text.new
        ≡ string_bytes text.old ++ text_of (map (planned_line word.now) plans.now)) }
{
    for planned in plans {
        print_planned(text, word, planned)?;
    }
    Ok(())
}

fn print_planned(text: &mut String, word: &str, planned: &Planned) -> Result<(), AllocError>
    ensures { OnOk result
        (string_bytes text.new
        ≡ string_bytes text.old ++ line_text (planned_line word.now planned.now)) }
{
    let direction = direction_word(planned.up);
    writeln!(text, "{word} {} {direction} {}", planned.bus, planned.count)
}

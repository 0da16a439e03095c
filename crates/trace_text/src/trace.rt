ghost use Rattle.std.specs.Prelude.{◌≡◌, [], ◌∷◌, ◌++◌, ◌<◌, ◌^◌, length, map, codes};
ghost use Rattle.std.specs.Prelude.{All, OnOk, IfOk, string_bytes};
ghost use Rattle.std.specs.Fmt.{decimal};
ghost use Rattle.board_printer.specs.Lines.{line_text, text_of};
ghost use Rattle.board_printer.specs.Boards.{board_text};
ghost use Rattle.trace_text.specs.Events.{HasLine, event_line};
ghost use Rattle.trace_text.specs.Traces.{trace_of};

use crate::digits::push_decimal;
use crate::events::push_event;
use board_model::Board;
use board_printer::print_board_lines;
use history_model::Event;
use pci_command::{List, NoMemory};
use std::alloc::{AllocError, Global};

/// The text of the trace: the canonical text of its board and its events from the oldest on. Each
/// event has a line over the board, as `has_line` tells, and there are fewer than 2^32.
#[tactic(auto, unfolding(crate::specs::Traces::trace_of))]
pub fn print_trace(alloc: Global, board: &Board, events: &[Event]) -> Result<List<u8>, NoMemory>
    requires lines { All (HasLine board.now) events.now }
    requires few { length events.now < 2 ^ 32 }
    ensures { IfOk result (λ text. text ≡ trace_of board.now events.now) }
{
    let mut start = String::new(alloc);
    print_start(&mut start, board)?;
    let mut text = start.into_bytes();
    push_events(&mut text, board, events)?;
    push_last(&mut text, events.len() as u32)?;
    Ok(List::from_vec(text))
}

/// What stands before the events.
fn print_start(text: &mut String, board: &Board) -> Result<(), AllocError>
    ensures { OnOk result (string_bytes text.new ≡ string_bytes text.old
        ++ (line_text (codes "pcitrace" ∷ codes "1" ∷ [])
        ++ (board_text board.now ++ line_text (codes "events" ∷ [])))) }
{
    text.push_str("pcitrace 1\n")?;
    print_board_lines(text, board)?;
    text.push_str("events\n")
}

fn push_events(text: &mut Vec<u8>, board: &Board, events: &[Event]) -> Result<(), AllocError>
    ensures { OnOk result
        (text.new.items ≡ text.old.items ++ text_of (map (event_line board.now) events.now)) }
{
    for event in events {
        push_event(text, board, event)?;
    }
    Ok(())
}

/// The last line: how many events there are.
fn push_last(text: &mut Vec<u8>, count: u32) -> Result<(), AllocError>
    ensures { OnOk result
        (text.new.items ≡ text.old.items ++ line_text (codes "end" ∷ decimal count ∷ [])) }
{
    text.extend_from_slice(b"end ")?;
    push_decimal(text, count)?;
    text.push(b'\n')?;
    Ok(())
}

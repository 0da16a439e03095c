ghost use Rattle.std.specs.Prelude.{◌≡◌, ◌++◌, IfOk, IfErr, OnOk, string_bytes};
ghost use Rattle.board_printer.specs.Lines.{line_text};
ghost use Rattle.command_traces.specs.untagged.Lines.{run_line, stale_line, stale_lines};
ghost use Rattle.command_traces.specs.untagged.Lines.{count_line, untagged_text};

use board_model::Board;
use program_status::Status;
use std::alloc::{AllocError, Global};
use trace_text::print_operation;
use untagged_apart::print_apart;
use untagged_check::Stale;

/// All lines of a run.
pub(crate) fn untagged_text(
    alloc: Global,
    board: &Board,
    events: usize,
    stale: &[Stale],
    apart: bool,
) -> Result<Vec<u8>, Status>
    ensures ok { IfOk result (λ text. text.items ≡ untagged_text board.now events stale.now apart) }
    ensures err { IfErr result (λ status. status ≡ Status.NoMemory) }
{
    let mut text = String::new(alloc);
    match print_untagged(&mut text, board, events, stale, apart) {
        Ok(()) => Ok(text.into_bytes()),
        Err(_) => Err(Status::NoMemory),
    }
}

fn print_untagged(
    text: &mut String,
    board: &Board,
    events: usize,
    stale: &[Stale],
    apart: bool,
) -> Result<(), AllocError>
    ensures { OnOk result (string_bytes text.new
        ≡ string_bytes text.old ++ untagged_text board.now events stale.now apart) }
{
    print_run(text, events)?;
    print_stales(text, board, stale)?;
    print_count(text, stale.len())?;
    print_apart(text, apart)
}

fn print_run(text: &mut String, events: usize) -> Result<(), AllocError>
    ensures { OnOk result (string_bytes text.new
        ≡ string_bytes text.old ++ line_text (run_line events)) }
{
    writeln!(text, "untagged run of {events} events")
}

/// A line for each stale read.
fn print_stales(text: &mut String, board: &Board, stale: &[Stale]) -> Result<(), AllocError>
    ensures { OnOk result (string_bytes text.new
        ≡ string_bytes text.old ++ stale_lines board.now stale.now) }
{
    for one in stale {
        print_stale(text, board, one)?;
    }
    Ok(())
}

fn print_stale(text: &mut String, board: &Board, stale: &Stale) -> Result<(), AllocError>
    ensures { OnOk result (string_bytes text.new
        ≡ string_bytes text.old ++ line_text (stale_line board.now stale.now)) }
{
    print_operation(text, board, &stale.read)?;
    text.push_str(" stale ")?;
    print_operation(text, board, &stale.write)?;
    writeln!(text, " by event {}", stale.event)
}

fn print_count(text: &mut String, stale: usize) -> Result<(), AllocError>
    ensures { OnOk result (string_bytes text.new
        ≡ string_bytes text.old ++ line_text (count_line stale)) }
{
    writeln!(text, "stale {stale}")
}

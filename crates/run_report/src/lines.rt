ghost use Rattle.std.specs.Prelude.{◌≡◌, ◌++◌, OnOk, string_bytes};
ghost use Rattle.board_printer.specs.Lines.{line_text};
ghost use Rattle.run_report.specs.Report.{size_line, length_line, bus_line, buses_text};
ghost use Rattle.run_report.specs.Tallies.{count_in, tally_at};

use crate::tallies::Tally;
use board_model::{Board, is_bus};
use std::alloc::AllocError;

/// How large the board is.
pub(crate) fn print_size(
    text: &mut String,
    buses: usize,
    masters: usize,
    operations: u64,
) -> Result<(), AllocError>
    ensures { OnOk result (string_bytes text.new ≡ string_bytes text.old ++
        line_text (size_line buses masters operations)) }
{
    writeln!(
        text,
        "buses {buses} masters {masters} operations {operations}"
    )
}

/// How long the run is, and how long it may be.
pub(crate) fn print_length(text: &mut String, events: usize, bound: u64) -> Result<(), AllocError>
    ensures { OnOk result
        (string_bytes text.new ≡ string_bytes text.old ++ line_text (length_line events bound)) }
{
    writeln!(text, "events {events} bound {bound}")
}

/// A line for each bus of the board, by number.
pub(crate) fn print_buses(
    text: &mut String,
    board: &Board,
    tallies: &[Tally; 256],
) -> Result<(), AllocError>
    ensures { OnOk result (string_bytes text.new
        ≡ string_bytes text.old ++
        buses_text board.now (λ bus. count_in (tally_at tallies.now bus))) }
{
    for bus in 0..256u16 {
        let bus = bus as u8;
        if is_bus(board, bus) {
            print_bus(text, bus, &tallies[usize::from(bus)])?;
        }
    }
    Ok(())
}

fn print_bus(text: &mut String, bus: u8, tally: &Tally) -> Result<(), AllocError>
    ensures { OnOk result (string_bytes text.new ≡ string_bytes text.old ++
        line_text (bus_line bus (count_in tally.now))) }
{
    writeln!(
        text,
        "bus {bus} land {} read {} accept {} latch {} take {} stall {} nobody {} tabort {} arrive {}",
        tally.land,
        tally.read,
        tally.accept,
        tally.latch,
        tally.take,
        tally.stall,
        tally.nobody,
        tally.tabort,
        tally.arrive
    )
}

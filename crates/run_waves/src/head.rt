ghost use Rattle.std.specs.Prelude.{◌≡◌, ◌≤◌, [], ◌∷◌, ◌++◌, drop, length, IsTrue, IfOk, OnOk};
ghost use Rattle.std.specs.Prelude.{string_bytes};
ghost use Rattle.board_model.specs.WellFormed.{is_well_formed};
ghost use Rattle.board_printer.specs.Lines.{spaced, line_text, text_of};
ghost use Rattle.run_waves.specs.Signals.{signals_on, signals_of};
ghost use Rattle.run_waves.specs.Dump.{kind_of, part_word, count_word, name_of, var_line};
ghost use Rattle.run_waves.specs.Dump.{var_lines, scope_title, scope_lines, all_scopes, head_lines};

use crate::code::Code;
use crate::signal::{BusPart, LaneCount, Signal};
use crate::signals::add_bus;
use board_model::{Board, is_bus};
use std::alloc::{AllocError, Global};
use trace_text::{LaneWord, master_name, target_name};

/// The declarations: the signals of each bus, by number. Tells them.
pub(crate) fn print_head(
    alloc: Global,
    text: &mut String,
    board: &Board,
) -> Result<Vec<Signal>, AllocError>
    requires { IsTrue (is_well_formed board.now) }
    ensures text { OnOk result (string_bytes text.new
        ≡ string_bytes text.old ++ text_of (head_lines board.now)) }
    ensures signals { IfOk result (λ signals. signals.items ≡ signals_of board.now) }
{
    writeln!(text, "$version pcitree $end")?;
    writeln!(text, "$timescale 1 ns $end")?;
    let mut signals = Vec::new(alloc);
    print_scopes(text, board, &mut signals)?;
    writeln!(text, "$enddefinitions $end")?;
    Ok(signals)
}

/// Bus by bus.
fn print_scopes(
    text: &mut String,
    board: &Board,
    signals: &mut Vec<Signal>,
) -> Result<(), AllocError>
    requires formed { IsTrue (is_well_formed board.now) }
    requires none { signals.old.items ≡ [] }
    ensures text { OnOk result (string_bytes text.new
        ≡ string_bytes text.old ++ text_of (all_scopes board.now)) }
    ensures signals { OnOk result (signals.new.items ≡ signals_of board.now) }
{
    for bus in 0..256u16 {
        let bus = bus as u8;
        if is_bus(board, bus) {
            print_scope(text, board, signals, bus)?;
        }
    }
    Ok(())
}

/// The signals of a bus, numbered on from those before it.
fn print_scope(
    text: &mut String,
    board: &Board,
    signals: &mut Vec<Signal>,
    bus: u8,
) -> Result<(), AllocError>
    requires { IsTrue (is_well_formed board.now) }
    ensures text { OnOk result (string_bytes text.new
        ≡ string_bytes text.old ++ text_of (scope_lines board.now (length signals.old.items) bus)) }
    ensures signals { OnOk result (signals.new.items
        ≡ signals.old.items ++ signals_on board.now bus) }
{
    let first = signals.len();
    add_bus(signals, board, bus)?;
    print_title(text, bus)?;
    print_vars(text, board, signals.as_slice(), first)?;
    writeln!(text, "$upscope $end")
}

fn print_title(text: &mut String, bus: u8) -> Result<(), AllocError>
    ensures { OnOk result (string_bytes text.new
        ≡ string_bytes text.old ++ line_text (scope_title bus)) }
{
    writeln!(text, "$scope module bus{bus} $end")
}

/// The signals from this number on.
fn print_vars(
    text: &mut String,
    board: &Board,
    signals: &[Signal],
    first: usize,
) -> Result<(), AllocError>
    requires { first ≤ length signals.now }
    ensures { OnOk result (string_bytes text.new
        ≡ string_bytes text.old ++ text_of (var_lines board.now first (drop first signals.now))) }
{
    for number in first..signals.len() {
        print_var(text, board, number, signals[number])?;
    }
    Ok(())
}

fn print_var(
    text: &mut String,
    board: &Board,
    number: usize,
    signal: Signal,
) -> Result<(), AllocError>
    ensures { OnOk result (string_bytes text.new
        ≡ string_bytes text.old ++ line_text (var_line board.now number signal)) }
{
    write!(text, "$var {} {} ", kind_of(signal), Code(number))?;
    print_name(text, board, signal)?;
    writeln!(text, " $end")
}

/// The kind of a signal, and its width in bits.
fn kind_of(signal: Signal) -> &'static str
    ensures { spaced (kind_of signal) [] ≡ 32 ∷ result.now }
{
    match signal {
        Signal::Bus { part, .. } => match part {
            BusPart::Event | BusPart::By | BusPart::Op | BusPart::To => "string 1",
            BusPart::Value => "reg 32",
        },
        Signal::Lane { count, .. } => match count {
            LaneCount::Flight => "reg 6",
            LaneCount::Owed
            | LaneCount::Held
            | LaneCount::Posts
            | LaneCount::Requests
            | LaneCount::Completions => "reg 4",
        },
        Signal::Index { .. } => "reg 11",
        Signal::Try { .. } => "reg 16",
        Signal::Waits { .. } => "wire 1",
        Signal::Stall { .. } => "reg 20",
    }
}

fn print_name(text: &mut String, board: &Board, signal: Signal) -> Result<(), AllocError>
    ensures { OnOk result (string_bytes text.new
        ≡ string_bytes text.old ++ name_of board.now signal) }
{
    match signal {
        Signal::Bus { bus, part } => write!(text, "bus{bus}_{}", part_word(part)),
        Signal::Lane { lane, count } => {
            write!(text, "lane{}_{}", LaneWord(lane), count_word(count))
        }
        Signal::Index { master } => write!(text, "{}_index", master_name(board, master)),
        Signal::Try { master } => write!(text, "{}_try", master_name(board, master)),
        Signal::Waits { master } => write!(text, "{}_waits", master_name(board, master)),
        Signal::Stall { target } => write!(text, "{}_stall", target_name(board, target)),
    }
}

fn part_word(part: BusPart) -> &'static str
    ensures { result.now ≡ part_word part }
{
    match part {
        BusPart::Event => "event",
        BusPart::By => "by",
        BusPart::Op => "op",
        BusPart::To => "to",
        BusPart::Value => "value",
    }
}

fn count_word(count: LaneCount) -> &'static str
    ensures { result.now ≡ count_word count }
{
    match count {
        LaneCount::Owed => "owed",
        LaneCount::Held => "held",
        LaneCount::Flight => "flight",
        LaneCount::Posts => "posts",
        LaneCount::Requests => "requests",
        LaneCount::Completions => "completions",
    }
}

ghost use Rattle.std.specs.Prelude.{◌≡◌, ◌++◌, ◌∷◌, [], map, IfOk, IfErr, OnOk, string_bytes};
ghost use Rattle.board_printer.specs.Lines.{spaced, line_text};
ghost use Rattle.board_printer.specs.Numbers.{address_text};
ghost use Rattle.safe_said.specs.AllSaid.{verdict, line};
ghost use Rattle.command_safe.specs.safe.Counts.{counts_of};
ghost use Rattle.command_safe.specs.safe.Lines.{place_word, dword_words, said_words, said_line};
ghost use Rattle.command_safe.specs.safe.Lines.{said_lines, further, count_line, lines_of};

use board_model::{Board, Word};
use board_printer::{HexWord, space_word};
use pci_command::OpId;
use program_status::{SafeCounts, Status};
use safe_said::{OpSaid, Said};
use std::alloc::{AllocError, Global};
use trace_text::{master_name, target_name};
use untagged_apart::print_apart;

/// All lines of a board.
pub(crate) fn safe_text(
    alloc: Global,
    board: &Board,
    said: &[OpSaid],
    apart: bool,
    counts: SafeCounts,
) -> Result<Vec<u8>, Status>
    requires { counts ≡ counts_of (map line said.now) }
    ensures ok { IfOk result (λ text. text.items ≡ lines_of board.now (map line said.now) apart) }
    ensures err { IfErr result (λ status. status ≡ Status.NoMemory) }
{
    let mut text = String::new(alloc);
    match print_safe(&mut text, board, said, apart, counts) {
        Ok(()) => Ok(text.into_bytes()),
        Err(_) => Err(Status::NoMemory),
    }
}

fn print_safe(
    text: &mut String,
    board: &Board,
    said: &[OpSaid],
    apart: bool,
    counts: SafeCounts,
) -> Result<(), AllocError>
    requires { counts ≡ counts_of (map line said.now) }
    ensures { OnOk result (string_bytes text.new
        ≡ string_bytes text.old ++ lines_of board.now (map line said.now) apart) }
{
    print_all(text, board, said)?;
    print_apart(text, apart)?;
    print_counts(text, counts)
}

/// A line for each operation of which something is said.
fn print_all(text: &mut String, board: &Board, said: &[OpSaid]) -> Result<(), AllocError>
    ensures { OnOk result (string_bytes text.new
        ≡ string_bytes text.old ++ said_lines board.now (map line said.now)) }
{
    for one in said {
        print_line(text, board, one)?;
    }
    Ok(())
}

fn print_line(text: &mut String, board: &Board, one: &OpSaid) -> Result<(), AllocError>
    ensures { OnOk result (string_bytes text.new
        ≡ string_bytes text.old ++ line_text (said_line board.now (line one.now))) }
{
    print_place(text, board, one.op)?;
    print_said(text, board, one.said)?;
    writeln!(text)
}

fn print_said(text: &mut String, board: &Board, said: Said) -> Result<(), AllocError>
    ensures { OnOk result (string_bytes text.new
        ≡ string_bytes text.old ++ spaced (said_words board.now (verdict said)) []) }
{
    match said {
        Said::Safe { word, value } => {
            text.push_str(" safe")?;
            print_word(text, board, word)?;
            write!(text, " {}", HexWord(value))
        }
        Said::Unsafe { word, beside } => {
            text.push_str(" unsafe")?;
            print_word(text, board, word)?;
            text.push_str(" beside ")?;
            print_place(text, board, beside)
        }
        Said::Lost { aborted: true } => text.push_str(" lost abort"),
        Said::Lost { aborted: false } => text.push_str(" lost nobody"),
        Said::Nowhere { aborted: true } => text.push_str(" abort"),
        Said::Nowhere { aborted: false } => text.push_str(" nobody"),
        Said::Vain => text.push_str(" vain"),
        Said::Loose => text.push_str(" loose"),
    }
}

/// An operation as `NAME.INDEX`, all tries of a poll as one.
fn print_place(text: &mut String, board: &Board, op: OpId) -> Result<(), AllocError>
    ensures { OnOk result (string_bytes text.new
        ≡ string_bytes text.old ++ place_word board.now op) }
{
    write!(text, "{}.{}", master_name(board, op.master), op.index)
}

/// A dword as `TARGET SPACE ADDR`, behind a space.
fn print_word(text: &mut String, board: &Board, word: Word) -> Result<(), AllocError>
    ensures { OnOk result (string_bytes text.new ≡ string_bytes text.old
        ++ spaced (dword_words board.now word.target word.space word.address) []) }
{
    let name = target_name(board, word.target);
    write!(text, " {name} {} ", space_word(word.space))?;
    print_address(text, word.address)
}

/// An address in eight digits, from 2^32 on in two halves.
#[tactic(auto, using(crate::proofs::safe::AddressLemmas::short_address, crate::proofs::safe::AddressLemmas::long_address))]
fn print_address(text: &mut String, address: u128) -> Result<(), AllocError>
    ensures { OnOk result (string_bytes text.new
        ≡ string_bytes text.old ++ address_text address) }
{
    let lower = HexWord((address % 0x1_0000_0000) as u32);
    let upper = address / 0x1_0000_0000;
    if upper == 0 {
        write!(text, "{lower}")
    } else {
        write!(text, "{}:{lower}", HexWord((upper % 0x1_0000_0000) as u32))
    }
}

fn print_counts(text: &mut String, counts: SafeCounts) -> Result<(), AllocError>
    ensures { OnOk result (string_bytes text.new
        ≡ string_bytes text.old ++ line_text (count_line counts)) }
{
    let SafeCounts {
        unsafe_reads,
        lost,
        vain,
        nowhere,
    } = counts;
    write!(text, "unsafe {unsafe_reads} lost {lost} vain {vain}")?;
    print_further(text, "nowhere", nowhere)?;
    writeln!(text)
}

/// A count that is told only where it is not 0.
fn print_further(text: &mut String, name: &str, count: u32) -> Result<(), AllocError>
    ensures { OnOk result (string_bytes text.new
        ≡ string_bytes text.old ++ spaced (further name.now count) []) }
{
    if count == 0 {
        Ok(())
    } else {
        write!(text, " {name} {count}")
    }
}

ghost use Rattle.std.specs.Prelude.{◌≡◌, ◌++◌, map, OnOk, string_bytes, [], ◌∷◌};
ghost use Rattle.board_printer.specs.Lines.{spaced, line_text};
ghost use Rattle.trace_text.specs.Words.{op_word, target_name};
ghost use Rattle.audit_text.specs.Lines.{word_words, known_words, finding_words, finding_line};

use crate::found::Found;
use board_model::Board;
use board_printer::{Address, HexWord, space_word};
use pci_command::{OpId, Space};
use std::alloc::AllocError;
use trace_text::{print_operation, target_name};

/// The line of a read without its newline, behind a text.
pub fn print_found(text: &mut String, board: &Board, found: &Found) -> Result<(), AllocError>
    ensures { OnOk result
        (string_bytes text.new ≡ string_bytes text.old ++ finding_words board.now found.now) }
{
    print_operation(text, board, &found.read)?;
    print_word(text, board, found.target, found.space, found.address)?;
    print_known(text, board, found.value, found.write)?;
    text.push_str(" by")?;
    print_chain(text, board, found.chain.as_slice())
}

/// The line of a read, behind a text.
pub(crate) fn print_line(text: &mut String, board: &Board, found: &Found) -> Result<(), AllocError>
    ensures { OnOk result (string_bytes text.new ≡ string_bytes text.old ++
        line_text (finding_line board.now found.now)) }
{
    print_found(text, board, found)?;
    writeln!(text)
}

fn print_word(
    text: &mut String,
    board: &Board,
    target: u16,
    space: Space,
    address: u64,
) -> Result<(), AllocError>
    ensures { OnOk result
        (string_bytes text.new ≡ string_bytes text.old ++
        spaced (word_words board.now target space address) []) }
{
    let name = target_name(board, target);
    write!(
        text,
        " read {name} {} {}",
        space_word(space),
        Address(address)
    )
}

fn print_known(text: &mut String, board: &Board, value: u32, write: OpId) -> Result<(), AllocError>
    ensures { OnOk result
        (string_bytes text.new ≡ string_bytes text.old ++
        spaced (known_words board.now value write) []) }
{
    write!(text, " {} knowing ", HexWord(value))?;
    print_operation(text, board, &write)
}

fn print_chain(text: &mut String, board: &Board, chain: &[OpId]) -> Result<(), AllocError>
    ensures { OnOk result
        (string_bytes text.new ≡ string_bytes text.old ++
        spaced (map (op_word board.now) chain.now) []) }
{
    for op in chain {
        text.push_str(" ")?;
        print_operation(text, board, op)?;
    }
    Ok(())
}

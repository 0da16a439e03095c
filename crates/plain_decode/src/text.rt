ghost use Rattle.std.specs.Prelude.{◌≡◌, ◌<◌, ◌^◌, length, map, None, IfOk, IfErr};
ghost use Rattle.board_text.specs.Lines.{lines_of};
ghost use Rattle.plain_decode.specs.Text.{token_lines, word_lines, slices_of, first_fault};
ghost use Rattle.plain_decode.specs.Text.{IsFirstFault};

use board_text::{Token, check_line, next_line, tokens_of};
use pci_command::List;
use std::alloc::Global;
use text_faults::{AtLine, LineFault, OrNoMemory};

/// A line that has tokens: its number, from 1, and all its tokens in order.
#[derive(Debug, Drop)]
pub struct Line {
    pub number: u32,
    pub tokens: List<Token>,
}

/// Why a text was not read as lines: the first that may not be read, and its fault.
pub type TextFault = OrNoMemory<AtLine<LineFault>>;

/// The lines of a text that have tokens, in order, each with its number and all its tokens. A text
/// has fewer than 2^31 bytes. The first line that is longer than 256 bytes or has a byte that no
/// line may have is the fault; a line that is too long is not looked at further.
pub fn lines(alloc: Global, bytes: &[u8]) -> Result<List<Line>, TextFault>
    requires { length bytes.now < 2 ^ 31 }
    ensures read { IfOk result (λ found. found ≡ token_lines 1 0 (lines_of bytes.now)) }
    ensures words { IfOk result
        (λ found. map (slices_of bytes.now) found ≡ word_lines 1 (lines_of bytes.now)) }
    ensures sound { IfOk result (λ _. first_fault 1 (lines_of bytes.now) ≡ None) }
    ensures faulty { IfErr result (IsFirstFault (lines_of bytes.now)) }
{
    let mut found = Vec::new(alloc);
    let mut number = 1;
    let mut at = 0;
    while let Some((line, next)) = next_line(bytes, at) {
        if let Err(fault) = check_line(line) {
            return Err(TextFault::Fault(AtLine {
                line: number,
                fault,
            }));
        }
        let tokens = tokens_of(alloc, line, at as u32)?;
        if !tokens.as_slice().is_empty() {
            found.push(Line { number, tokens })?;
        }
        number += 1;
        at = next;
    }
    Ok(List::from_vec(found))
}

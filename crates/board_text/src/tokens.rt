ghost use Rattle.std.specs.Prelude.{◌≡◌, ◌+◌, ◌-◌, ◌<◌, ◌≤◌, ◌^◌, length, map, IfOk};
ghost use Rattle.std.specs.List.{slice_split, All};
ghost use Rattle.board_text.specs.Tokens.{is_separator, placed, tokens_of};
ghost use Rattle.board_text.specs.Tokens.{words_of, slice_at, IsWithin};

use crate::words::{length_before_comment, next_word};
use pci_command::{List, NoMemory};
use std::alloc::Global;

/// A token by its places in the text: its first byte stands at `start`, and the byte behind its
/// last one at `end`.
#[derive(Clone, Copy, Debug, PartialEq, Eq)]
pub struct Token {
    pub start: u32,
    pub end: u32,
}

/// The tokens of a line, in order: what stands between spaces and tabs, before the first `#`.
/// `start` is the place in the text at which the line begins.
pub fn tokens_of(alloc: Global, line: &[u8], start: u32) -> Result<List<Token>, NoMemory>
    requires { start + length line.now < 2 ^ 32 }
    ensures places { IfOk result (λ tokens. tokens ≡ tokens_of start line.now) }
    ensures words { IfOk result
        (λ tokens. map (slice_at start line.now) tokens ≡ words_of line.now) }
    ensures within { IfOk result (All (IsWithin start (start + length line.now))) }
{
    let (text, _comment) = line.split_at(length_before_comment(line));
    tokens_between(alloc, text, start)
}

fn tokens_between(alloc: Global, text: &[u8], start: u32) -> Result<List<Token>, NoMemory>
    requires { start + length text.now < 2 ^ 32 }
    ensures { IfOk result (λ tokens. tokens ≡ placed start (slice_split is_separator text.now)) }
{
    let mut tokens = Vec::new(alloc);
    let mut rest = text;
    while let Some((word, behind)) = next_word(rest) {
        tokens.push(token_before(start, text, word, behind))?;
        rest = behind;
    }
    Ok(List::from_vec(tokens))
}

/// The token of a word of a text that begins at `start`, behind which this is left of the text.
fn token_before(start: u32, text: &[u8], word: &[u8], behind: &[u8]) -> Token
    requires short { start + length text.now < 2 ^ 32 }
    requires within { length word.now + length behind.now ≤ length text.now }
    ensures begins { result.start
        ≡ start + (length text.now - length behind.now - length word.now) }
    ensures ends { result.end ≡ start + (length text.now - length behind.now) }
{
    let end = text.len() - behind.len();
    Token {
        start: start + (end - word.len()) as u32,
        end: start + end as u32,
    }
}

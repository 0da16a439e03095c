ghost use Rattle.std.specs.Prelude.{◌≡◌};
ghost use Rattle.std.specs.Option.{option_map};
ghost use Rattle.trace_reader.specs.lines.Words.{at_most, number_of, master_in, at_dot, named};
ghost use Rattle.trace_reader.specs.lines.Words.{index_and_try, op_by, op_in};
ghost use Rattle.trace_text.specs.Words.{names_poll};

use crate::lines::names::Names;
use crate::lines::words::number_of;
use board_model::{Op, op_of};
use board_statements::parts;
use pci_command::OpId;

/// An operation of the board: NAME.INDEX, for a poll NAME.INDEX.TRY.
pub(crate) fn op_in(names: &Names, word: &[u8]) -> Option<OpId>
    ensures { result ≡ op_in names.now word.now }
{
    let (name, rest) = at_dot(word)?;
    let master = master_in(names, name)?;
    match at_dot(rest) {
        None => named(names, false, master, index_of(rest)?, 0),
        Some((index, attempt)) => {
            let index = index_of(index)?;
            let attempt = number_of(attempt)?;
            named(names, true, master, index, attempt)
        }
    }
}

fn index_of(word: &[u8]) -> Option<u16>
    ensures { result ≡ at_most 65535 (number_of word.now) }
{
    let number = number_of(word)?;
    u16::try_from(number).ok()
}

/// What stands before the first dot, and what behind it.
fn at_dot(word: &[u8]) -> Option<(&[u8], &[u8])>
    ensures { option_map (λ parts. (parts.0.now, parts.1.now)) result ≡ at_dot word.now }
{
    parts(word, b'.')
}

/// The place of the master of this name.
fn master_in(names: &Names, word: &[u8]) -> Option<u16>
    ensures { result ≡ master_in names.now word.now }
{
    let place = names.master(word)?;
    u16::try_from(place).ok()
}

/// The operation of that name, which is there, and a poll or none as it is named.
fn named(names: &Names, polls: bool, master: u16, index: u16, attempt: u32) -> Option<OpId>
    ensures { result ≡ named names.now polls master index attempt }
{
    let op = OpId {
        master,
        index,
        attempt,
    };
    let found = op_of(names.board(), op)?;
    if matches!(found, Op::Poll { .. }) == polls {
        Some(op)
    } else {
        None
    }
}

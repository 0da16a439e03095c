//! Which word of a line is at fault.
ghost use Rattle.std.specs.Prelude.{◌-◌, ◌<◌, ◌≤◌, length};
ghost use Rattle.board_text.specs.Tokens.{words_of};

use crate::draft::bridges::{is_ordered, is_whole};
use board_model::{Bridge, MOST_DWORDS, Op, Window};
use board_statements::{Statement, Words, take_statement};
use text_faults::LineFault;

/// How many words a line of 256 bytes has at most.
const MOST_WORDS: usize = 128;

/// The words of `bridge B on Q dev D last S`, behind which all may be left out.
const HEAD_OF_A_BRIDGE: usize = 8;

/// The words of `header D BYTES`, behind which all may be left out.
const HEAD_OF_A_HEADER: usize = 3;

/// The words of a write in memory with its first data word.
const SHORTEST_WRITE: usize = 3;

/// The word of a line at which a reader from left to right meets this fault, by its place from 0: a
/// word that is none of its kind, the first that is too many, and where the words have the fault
/// together, the last that it needs. It is the first word where the words alone do not have the
/// fault. `wide` says that the line is of a `pciboard 2` text.
pub fn word_at_fault(wide: bool, line: &[u8], fault: LineFault) -> usize
    ensures { result ≤ length (words_of line.now) - 1 }
{
    let count = Words::new(line).left();
    let left = left_behind(wide, line, fault);
    count.saturating_sub(left).saturating_sub(1)
}

/// How many words stand behind the one at fault: all of them where there is none.
fn left_behind(wide: bool, line: &[u8], fault: LineFault) -> usize {
    let mut words = Words::new(line);
    match take_statement(&mut words, wide) {
        Ok(statement) => left_behind_statement(line, &statement, fault),
        Err(met) => {
            if met == fault {
                words.left()
            } else {
                Words::new(line).left()
            }
        }
    }
}

/// The same of a line whose words say this.
fn left_behind_statement(line: &[u8], statement: &Statement, fault: LineFault) -> usize {
    let mut words = Words::new(line);
    if is_of_statement(fault) {
        take_needed(&mut words, statement, fault);
    }
    words.left()
}

/// Whether it is a fault of what the words of a line say together.
fn is_of_statement(fault: LineFault) -> bool {
    matches!(
        fault,
        LineFault::Unaligned
            | LineFault::PastItsBlock
            | LineFault::PastItsSpace
            | LineFault::NotTypeOne
            | LineFault::NotServed
            | LineFault::NoBridgeNumbers
            | LineFault::WideWindow
    )
}

/// Takes the words that a statement needs to have the fault.
fn take_needed(words: &mut Words, statement: &Statement, fault: LineFault) {
    match statement {
        Statement::NewBridge(bridge) => take_windows(words, bridge, fault),
        Statement::NewHeader { .. } => take_words(words, HEAD_OF_A_HEADER),
        Statement::Does { op, .. } => take_words(words, words_of_op(op, fault)),
        _ => take_words(words, MOST_WORDS),
    }
}

/// How many words an operation needs to have the fault.
fn words_of_op(op: &Op, fault: LineFault) -> usize {
    match op {
        Op::Write { address, .. } => words_of_write(*address, fault),
        Op::Read { .. } | Op::CfgRead { .. } | Op::CfgWrite { .. } | Op::Poll { .. } => MOST_WORDS,
    }
}

/// A write needs its first data word, or the first one that is past its block or past the eighth.
fn words_of_write(address: u64, fault: LineFault) -> usize {
    if fault == LineFault::PastItsBlock {
        let in_block = (64 - address % 64) / 4;
        SHORTEST_WRITE + in_block.min(MOST_DWORDS as u64) as usize
    } else {
        SHORTEST_WRITE
    }
}

/// Takes the words of a bridge up to the first window that has the fault.
fn take_windows(words: &mut Words, bridge: &Bridge, fault: LineFault) {
    take_words(words, HEAD_OF_A_BRIDGE);
    take_window(words, b"mem", bridge.mem);
    if has_fault(0x10_0000, bridge.mem, fault) {
        return;
    }
    take_window(words, b"pref", bridge.pref);
    if has_fault(0x10_0000, bridge.pref, fault) {
        return;
    }
    take_window(words, b"io", bridge.io);
}

/// Whether a window of such units has the fault: it is not whole, or else not ordered.
fn has_fault(unit: u128, window: Option<Window>, fault: LineFault) -> bool
    requires { 0 < unit }
{
    if fault == LineFault::Unaligned {
        !is_whole(unit, window)
    } else {
        !is_ordered(window)
    }
}

/// Takes this word and the window behind it, `none` where it is closed, if it is the next word.
fn take_window(words: &mut Words, word: &[u8], window: Option<Window>) {
    if words.skips(word) {
        match window {
            None => take_words(words, 1),
            Some(_) => take_words(words, 2),
        }
    }
}

/// Takes so many words, or all where there are fewer.
fn take_words(words: &mut Words, count: usize) {
    for _ in 0..count {
        if words.take().is_err() {
            return;
        }
    }
}

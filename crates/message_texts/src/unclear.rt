//! Why a flag of a device text is not clear: what the check that found it kept, with the lines that
//! are in its way.

use crate::refused::TOO_LONG;
use board_statements::{Words, is_word};
use dma_agents::{Flag, MakeFault, OpPlace, Unclear, make};
use pci_command::NoMemory;
use program_pages::{Spot, Teller, line_at, place_of};
use std::alloc::{AllocError, Global};
use std::str::from_utf8;
use text_faults::OrNoMemory;

/// The line that waits, pointed at its address, and the other lines. The sentence is said where the
/// text is not refused so.
pub(crate) fn tell_unclear(
    teller: &mut Teller,
    input: &[u8],
    number: u32,
    at: usize,
    sentence: &str,
) -> Result<(), NoMemory> {
    let Some((_, line)) = line_at(input, number) else {
        return teller.point(number, b"", 0, sentence);
    };
    match why_unclear(teller.alloc(), input)? {
        None => teller.point(number, line, at, sentence),
        Some((flag, why)) => {
            let sentence = sentence_of(teller.alloc(), input, flag, why)?;
            teller.point(number, line, at, sentence.as_str())?;
            tell_others(teller, input, why)
        }
    }
}

fn why_unclear(alloc: Global, input: &[u8]) -> Result<Option<(Flag, Unclear)>, NoMemory> {
    if input.len() >= TOO_LONG {
        return Ok(None);
    }
    match make(alloc, input) {
        Err(OrNoMemory::Fault(MakeFault::NotClear { flag, why, .. })) => Ok(Some((flag, why))),
        Err(OrNoMemory::NoMemory) => Err(NoMemory),
        _ => Ok(None),
    }
}

fn sentence_of(alloc: Global, input: &[u8], flag: Flag, why: Unclear) -> Result<String, NoMemory> {
    let mut sentence = String::new(alloc);
    put_sentence(&mut sentence, input, flag, why)?;
    Ok(sentence)
}

fn put_sentence(
    text: &mut String,
    input: &[u8],
    flag: Flag,
    why: Unclear,
) -> Result<(), AllocError> {
    let Flag { address, value, .. } = flag;
    match why {
        Unclear::NoTarget => write!(text, "no memory range has {address:08x}"),
        Unclear::TwoTargets => write!(text, "two targets have {address:08x}"),
        Unclear::Aborts { target, .. } => {
            let name = name_of_target(input, target);
            write!(text, "{name} answers there with Target-Abort")
        }
        Unclear::OpensSo => {
            let over = "the wait is over before anything is written";
            write!(text, "the word opens as {value:08x}: {over}")
        }
        Unclear::WritesPart(_) => text.push_str("a write there enables not all four bytes"),
        Unclear::WritesMore(_) => text.push_str("the value comes in a write of several words"),
        Unclear::NobodyWrites => write!(text, "nothing writes {value:08x} there"),
        Unclear::TwoWrite(_, _) => write!(text, "two writes bring {value:08x} there"),
    }
}

/// The lines that are in the way.
fn tell_others(teller: &mut Teller, input: &[u8], why: Unclear) -> Result<(), NoMemory> {
    match why {
        Unclear::Aborts { target, range } => {
            tell_other(teller, input, Kind::Abort, target, range, "this range")
        }
        Unclear::WritesPart(place) => {
            tell_write(
                teller,
                input,
                place,
                "this line; a word line writes all four",
            )
        }
        Unclear::WritesMore(place) => {
            tell_write(
                teller,
                input,
                place,
                "this line; the flag is a write of its own",
            )
        }
        Unclear::TwoWrite(first, second) => {
            tell_write(teller, input, first, "this line")?;
            tell_write(teller, input, second, "and this line")
        }
        _ => Ok(()),
    }
}

fn tell_write(
    teller: &mut Teller,
    input: &[u8],
    place: OpPlace,
    text: &str,
) -> Result<(), NoMemory> {
    tell_other(
        teller,
        input,
        Kind::Operation,
        place.master,
        place.index,
        text,
    )
}

/// What the lines behind one that begins something are counted for.
#[derive(Clone, Copy)]
enum Kind {
    /// The operations of a master, a device or a handler.
    Operation,
    /// The abort ranges of a target.
    Abort,
}

fn tell_other(
    teller: &mut Teller,
    input: &[u8],
    kind: Kind,
    owner: usize,
    index: usize,
    text: &str,
) -> Result<(), NoMemory> {
    let Some((number, line)) = line_of(input, kind, owner, index) else {
        return Ok(());
    };
    if line.len() >= TOO_LONG {
        return Ok(());
    }
    let at = place_of(teller.alloc(), line, Spot::Word(0))?;
    teller.also(number, line, at, text)
}

/// The line with the operation or range of this index, of the owner of this number.
fn line_of(input: &[u8], kind: Kind, owner: usize, index: usize) -> Option<(u32, &[u8])> {
    let mut owners: usize = 0;
    let mut count: usize = 0;
    let mut number: u32 = 1;
    for line in input.split(|byte| *byte == b'\n') {
        if begins(kind, line) {
            owners = owners.saturating_add(1);
            count = 0;
        }
        count = count.saturating_add(count_in(kind, line));
        if owners > owner && count > index {
            return Some((number, line));
        }
        number = number.saturating_add(1);
    }
    None
}

/// Whether a master or a target begins on the line.
fn begins(kind: Kind, line: &[u8]) -> bool {
    let Ok(word) = Words::new(line).take() else {
        return false;
    };
    match kind {
        Kind::Operation => matches!(word, b"master" | b"device" | b"handler"),
        Kind::Abort => is_word(word, b"target"),
    }
}

/// How many operations or abort ranges a line that stands behind its owner has.
fn count_in(kind: Kind, line: &[u8]) -> usize {
    let mut words = Words::new(line);
    let Ok(word) = words.take() else {
        return 0;
    };
    match kind {
        Kind::Abort => usize::from(is_word(word, b"abort")),
        Kind::Operation => match word {
            b"master" => 0,
            b"put" => writes_of_put(&mut words),
            _ => 1,
        },
    }
}

/// The blocks of 32 bytes that a put touches.
fn writes_of_put(words: &mut Words) -> usize {
    let Ok(address) = words.hex() else {
        return 0;
    };
    let Ok(length) = words.decimal(1, 4096) else {
        return 0;
    };
    let first = address as usize;
    let end = first.saturating_add(length as usize).saturating_add(31);
    (end / 32).saturating_sub(first / 32)
}

/// The name of the target of this number.
fn name_of_target(input: &[u8], number: usize) -> &str {
    let mut passed: usize = 0;
    for line in input.split(|byte| *byte == b'\n') {
        if begins(Kind::Abort, line) {
            if passed == number {
                return second_word(line);
            }
            passed = passed.saturating_add(1);
        }
    }
    "the target"
}

fn second_word(line: &[u8]) -> &str {
    let mut words = Words::new(line);
    if words.take().is_err() {
        return "the target";
    }
    let Ok(word) = words.take() else {
        return "the target";
    };
    from_utf8(word).unwrap_or("the target")
}

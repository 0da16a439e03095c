ghost use Rattle.std.specs.Prelude.{◌≡◌, ◌<◌, ◌^◌, length, position, IfOk};
ghost use Rattle.std.specs.Prelude.{IfSome};
ghost use Rattle.program_pages.specs.Spots.{named_spot, place_of, behind, start_of};
ghost use Rattle.program_pages.specs.Spots.{is_barred, is_barred_in_comment};

use board_text::{Token, is_allowed, is_allowed_comment, length_before_comment, tokens_of};
use pci_command::NoMemory;
use std::alloc::Global;
use text_faults::LineFault;

/// What of a line is pointed at.
#[derive(Clone, Copy, Debug, PartialEq, Eq)]
pub enum Spot {
    /// The byte behind the 256 that a line may have.
    BehindLimit,
    /// The first byte that may not stand where it stands.
    BadByte,
    /// What is behind the last word.
    BehindWords,
    /// The word of this place, from 0.
    Word(usize),
}

/// The spot that a fault names by itself. Of any other fault it is the word at fault.
pub fn named_spot(fault: LineFault) -> Option<Spot>
    ensures { result ≡ named_spot fault }
{
    match fault {
        LineFault::TooLong => Some(Spot::BehindLimit),
        LineFault::BadByte => Some(Spot::BadByte),
        LineFault::Missing => Some(Spot::BehindWords),
        LineFault::NoOwner | LineFault::OverLimit => Some(Spot::Word(0)),
        LineFault::NameUsed | LineFault::BusUsed => Some(Spot::Word(1)),
        _ => None,
    }
}

/// The place in its line, from 0, at which a spot is: 0 of a word or byte that the line lacks.
pub fn place_of(alloc: Global, line: &[u8], spot: Spot) -> Result<usize, NoMemory>
    requires { length line.now < 2 ^ 31 }
    ensures { IfOk result (λ place. place ≡ place_of line.now spot) }
{
    match spot {
        Spot::BehindLimit => Ok(256), // not a limit
        Spot::BadByte => Ok(first_bad_byte(line)),
        Spot::BehindWords => {
            let words = tokens_of(alloc, line, 0)?;
            Ok(behind(words.as_slice().last().copied()))
        }
        Spot::Word(place) => {
            let words = tokens_of(alloc, line, 0)?;
            Ok(start_of(words.as_slice().get(place).copied()))
        }
    }
}

/// The place of the first byte that may not stand where it stands, or 0.
fn first_bad_byte(line: &[u8]) -> usize
    ensures { result ≡ place_of line.now Spot.BadByte }
{
    let (text, comment) = line.split_at(length_before_comment(line));
    match first_barred(text) {
        Some(place) => place,
        None => match first_barred_in_comment(comment) {
            Some(place) => text.len() + place,
            None => 0,
        },
    }
}

fn first_barred(text: &[u8]) -> Option<usize>
    ensures value { result ≡ position is_barred text.now }
{
    text.iter().position(|byte| !is_allowed(*byte))
}

fn first_barred_in_comment(comment: &[u8]) -> Option<usize>
    ensures value { result ≡ position is_barred_in_comment comment.now }
    ensures within { IfSome result (λ place. place < length comment.now) }
{
    comment.iter().position(|byte| !is_allowed_comment(*byte))
}

/// One place on from where a word ends.
fn behind(word: Option<Token>) -> usize
    ensures { result ≡ behind word }
{
    match word {
        None => 0,
        Some(word) => word.end as usize + 1,
    }
}

fn start_of(word: Option<Token>) -> usize
    ensures { result ≡ start_of word }
{
    match word {
        None => 0,
        Some(word) => word.start as usize,
    }
}

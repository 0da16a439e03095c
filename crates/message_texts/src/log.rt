ghost use Rattle.std.specs.Prelude.{IfOk, IsTrue};
ghost use Rattle.std.specs.List.{list_all};
ghost use Rattle.program_pages.specs.shown.Shown.{is_shown};

use crate::refused::TOO_LONG;
use pci_command::NoMemory;
use program_pages::{Fault, Message, Spot, Teller, line_at, place_of};
use program_status::Status;
use std::alloc::Global;

/// Which word of a line of a log is its command, from 0.
const COMMAND: usize = 3;

/// What a line of a log shows is more than may be, or not known to be at fault: its command.
pub fn tell_seen(teller: &mut Teller, input: &[u8], number: u32) -> Result<(), NoMemory> {
    let sentence = teller.sentence()?;
    point_at_command(teller, input, number, sentence.as_str())
}

/// The command of a line of a log, and a sentence.
pub fn point_at_command(
    teller: &mut Teller,
    input: &[u8],
    number: u32,
    text: &str,
) -> Result<(), NoMemory> {
    point_at_word(teller, input, number, COMMAND, text)
}

/// What a status says of a log of which a line outside its board is at fault: this word of it, by
/// its place from 0, and why.
pub fn message_of_bad_log(
    alloc: Global,
    name: &str,
    input: &[u8],
    status: &Status,
    word: usize,
) -> Result<Message, NoMemory>
    ensures { IfOk result (λ message. IsTrue (list_all is_shown message)) }
{
    let mut teller = Teller::new(alloc, name, Fault::of(status));
    if let Status::BadLog { line, .. } = *status {
        let sentence = teller.sentence()?;
        point_at_word(&mut teller, input, line, word, sentence.as_str())?;
        teller.more()?;
    }
    Ok(teller.into_message())
}

/// A line of this number, a word of it by its place from 0, and a sentence. Behind the last word what
/// is behind it is meant.
fn point_at_word(
    teller: &mut Teller,
    input: &[u8],
    number: u32,
    word: usize,
    text: &str,
) -> Result<(), NoMemory> {
    let line = match line_at(input, number) {
        Some((_, line)) if line.len() < TOO_LONG => line,
        _ => b"",
    };
    let at = match place_of(teller.alloc(), line, Spot::Word(word))? {
        0 if word > 0 => place_of(teller.alloc(), line, Spot::BehindWords)?,
        at => at,
    };
    teller.point(number, line, at, text)
}

ghost use Rattle.std.specs.Prelude.{◌<◌, ◌^◌, length};

use crate::refused::{TOO_LONG, board_part, smallest, word_lines};
use crate::unclear::tell_unclear;
use board_parser::{ParseFault, parse, word_at_fault};
use pci_command::NoMemory;
use program_pages::{
    Case, Spot, Teller, Text, bus_not_there, is_wide, line_at, named_spot, place_of,
    text_of_device, text_of_line,
};
use program_status::{BoardFault, Status};
use program_words::Reads;
use std::alloc::Global;
use text_faults::{DeviceFault, LineFault, TreeFault};

/// What is said of a line that a board may have, and the board of a log may not.
const NO_LINE_OF_A_LOG: &str = "no log has this line: what was done stands behind the line log";

/// How many lines are shown of one fault.
const MOST_SHOWN: u32 = 8;

/// A board is refused: the word at fault of a line, or the lines that have a fault together.
pub fn tell_board(
    teller: &mut Teller,
    input: &[u8],
    reads: Reads,
    status: &Status,
    number: u32,
    fault: BoardFault,
) -> Result<(), NoMemory> {
    let text = board_part(teller.alloc(), input, reads)?;
    let sentence = teller.sentence()?;
    let refused = RefusedBoard {
        input,
        reads,
        text: text.as_slice(),
        number,
        sentence: sentence.as_str(),
    };
    tell_fault(teller, &refused, status, fault)
}

/// A board that is refused: the input and as what it is read, the text of the board in it, and the
/// number of a line and the sentence of the fault.
#[derive(Clone, Copy)]
struct RefusedBoard<'a> {
    input: &'a [u8],
    reads: Reads,
    text: &'a [u8],
    number: u32,
    sentence: &'a str,
}

fn tell_fault(
    teller: &mut Teller,
    refused: &RefusedBoard,
    status: &Status,
    fault: BoardFault,
) -> Result<(), NoMemory> {
    let RefusedBoard {
        input,
        text,
        number,
        sentence,
        ..
    } = *refused;
    match fault {
        BoardFault::Line(LineFault::WrongWord) if refused.reads == Reads::Log => {
            tell_wrong_word(teller, text, number, sentence)
        }
        BoardFault::Line(fault) => tell_line(teller, text, number, fault, sentence),
        BoardFault::Tree(fault) => tell_tree(teller, text, status, fault, sentence),
        BoardFault::Bound(bound) => {
            let line = format!(in teller.alloc(); "{sentence}: this board may have {bound}")?;
            teller.error(line.as_str())
        }
        BoardFault::Device(fault) => tell_device(teller, input, number, fault, sentence),
    }
}

/// A line of the board part of a log begins with no word that it may begin with: some boards have it.
fn tell_wrong_word(
    teller: &mut Teller,
    text: &[u8],
    number: u32,
    sentence: &str,
) -> Result<(), NoMemory> {
    if !is_board(teller.alloc(), text)? {
        return tell_line(teller, text, number, LineFault::WrongWord, sentence);
    }
    let line = line_at(text, number).map_or(b"".as_slice(), |(_, line)| line);
    teller.point(number, line, 0, NO_LINE_OF_A_LOG)
}

/// Whether the text is read as a board, whatever its tree is.
fn is_board(alloc: Global, text: &[u8]) -> Result<bool, NoMemory> {
    if text.len() >= TOO_LONG {
        return Ok(false);
    }
    match parse(alloc, text) {
        Ok(_) => Ok(true),
        Err(ParseFault::NoMemory) => Err(NoMemory),
        Err(_) => Ok(false),
    }
}

/// A line of devices, or a mark of their text.
fn tell_device(
    teller: &mut Teller,
    input: &[u8],
    number: u32,
    fault: DeviceFault,
    sentence: &str,
) -> Result<(), NoMemory> {
    let line = short_line_at(input, number);
    let word = match fault {
        DeviceFault::Misshapen => return tell_misshapen(teller, input, number, line, sentence),
        DeviceFault::OverLimit => 0,
        DeviceFault::NameUsed => 1,
        DeviceFault::NotThere => 3,
        DeviceFault::Misplaced | DeviceFault::NotClear => word_of_address(line),
    };
    let at = place_of(teller.alloc(), line, Spot::Word(word))?;
    match fault {
        DeviceFault::NotClear => tell_unclear(teller, input, number, at, sentence),
        _ => teller.point(number, line, at, sentence),
    }
}

/// A line that may not stand where it does in a text of devices, or a mark that is not there.
fn tell_misshapen(
    teller: &mut Teller,
    input: &[u8],
    number: u32,
    line: &[u8],
    sentence: &str,
) -> Result<(), NoMemory>
    requires { length line.now < 2 ^ 31 }
{
    match text_of_device(input, number) {
        Some((text, spot)) => {
            let at = place_of(teller.alloc(), line, spot)?;
            tell_text(teller, number, line, at, text)
        }
        None => {
            let at = place_of(teller.alloc(), line, Spot::Word(0))?;
            teller.point(number, line, at, sentence)
        }
    }
}

/// The line of this number, if it is there and not too long; else none of its bytes.
fn short_line_at(text: &[u8], number: u32) -> &[u8]
    ensures { length result.now < 2 ^ 31 }
{
    match line_at(text, number) {
        Some((_, line)) if line.len() < TOO_LONG => line,
        _ => b"",
    }
}

/// Which word of a line of devices is its address: behind `bell` or `wait`, or else the second.
fn word_of_address(line: &[u8]) -> usize {
    let start = line.iter().position(|byte| *byte != b' ' && *byte != b'\t');
    let words = &line[start.unwrap_or(0)..];
    if words.starts_with(b"device") || words.starts_with(b"handler") {
        5
    } else {
        1
    }
}

fn tell_line(
    teller: &mut Teller,
    text: &[u8],
    number: u32,
    fault: LineFault,
    sentence: &str,
) -> Result<(), NoMemory> {
    let (before, line) = match line_at(text, number) {
        Some((start, line)) if line.len() < TOO_LONG => (&text[..start.min(text.len())], line),
        _ => return teller.point(number, b"", 0, sentence),
    };
    let spot = spot_at_fault(before, line, fault);
    let at = place_of(teller.alloc(), line, spot)?;
    let case = Case {
        before,
        line,
        number,
        spot,
        at,
    };
    tell_case(teller, &case, fault, sentence)?;
    match fault {
        LineFault::NameUsed | LineFault::BusUsed => tell_first_use(teller, &case, fault),
        _ => Ok(()),
    }
}

/// The place of a line at fault, with the text of its case, or else the sentence of the fault.
fn tell_case(
    teller: &mut Teller,
    case: &Case,
    fault: LineFault,
    sentence: &str,
) -> Result<(), NoMemory> {
    match text_of_line(case, fault) {
        Some(text) => tell_text(teller, case.number, case.line, case.at, text),
        None => teller.point(case.number, case.line, case.at, sentence),
    }
}

fn tell_text(
    teller: &mut Teller,
    number: u32,
    line: &[u8],
    at: usize,
    text: Text,
) -> Result<(), NoMemory> {
    let text = format!(in teller.alloc(); "{text}")?;
    teller.point(number, line, at, text.as_str())
}

/// The spot that the fault names, or else the word at fault of the line, which stands behind these.
fn spot_at_fault(before: &[u8], line: &[u8], fault: LineFault) -> Spot {
    match named_spot(fault) {
        Some(spot) => spot,
        None => Spot::Word(word_at_fault(is_wide(before), line, fault)),
    }
}

/// The status that tells this fault of the line behind so many.
fn refusal_behind(lines: usize, fault: LineFault) -> Status {
    let line = u32::try_from(lines).unwrap_or(u32::MAX).saturating_add(1);
    Status::BadBoard {
        line,
        fault: BoardFault::Line(fault),
    }
}

/// A fault of the tree: of a bus that is not there the first line that names it, and else the lines
/// that have the fault together.
fn tell_tree(
    teller: &mut Teller,
    text: &[u8],
    status: &Status,
    fault: TreeFault,
    sentence: &str,
) -> Result<(), NoMemory> {
    if fault == TreeFault::LacksABus {
        if let Some((number, bus)) = bus_not_there(text) {
            let line = match line_at(text, number) {
                Some((_, line)) => line,
                None => b"",
            };
            return tell_text(teller, number, line, 0, Text::NoBus(bus));
        }
    }
    tell_together(teller, text, status, sentence)
}

/// The lines that have the fault of the tree together: the first with the sentence, and the others.
fn tell_together(
    teller: &mut Teller,
    text: &[u8],
    status: &Status,
    sentence: &str,
) -> Result<(), NoMemory> {
    let lines = word_lines(teller.alloc(), text)?;
    match smallest(teller.alloc(), lines.text.as_slice(), status)? {
        Some(left) => show_left(teller, left.as_slice(), lines.numbers.as_slice(), sentence),
        None => teller.error(sentence),
    }
}

/// The lines that are left of a text whose lines have these numbers.
fn show_left(
    teller: &mut Teller,
    left: &[u8],
    numbers: &[u32],
    sentence: &str,
) -> Result<(), NoMemory> {
    let mut shown: u32 = 0;
    for (place, line) in left.split(|byte| *byte == b'\n').enumerate() {
        if says_more(line) {
            let number = numbers.get(place).copied().unwrap_or(0);
            match shown {
                0 => teller.point(number, line, 0, sentence)?,
                MOST_SHOWN => return teller.note(".."),
                _ => teller.also(number, line, 0, "with this line")?,
            }
            shown = shown.saturating_add(1);
        }
    }
    if shown == 0 {
        return teller.error(sentence);
    }
    Ok(())
}

/// The line before that has this fault together with the one of the case.
fn tell_first_use(teller: &mut Teller, case: &Case, fault: LineFault) -> Result<(), NoMemory> {
    let mut lines = word_lines(teller.alloc(), case.before)?;
    let status = refusal_behind(lines.numbers.len(), fault);
    lines.push(case.line, case.number)?;
    let Some(left) = smallest(teller.alloc(), lines.text.as_slice(), &status)? else {
        return Ok(());
    };
    tell_other(
        teller,
        left.as_slice(),
        lines.numbers.as_slice(),
        case.number,
    )
}

/// The first of these lines that says more and has another number.
fn tell_other(teller: &mut Teller, left: &[u8], numbers: &[u32], own: u32) -> Result<(), NoMemory> {
    for (place, line) in left.split(|byte| *byte == b'\n').enumerate() {
        let number = numbers.get(place).copied().unwrap_or(own);
        if number != own && says_more(line) {
            return teller.also(number, line, 0, "it is used here first");
        }
    }
    Ok(())
}

/// Whether a line is neither blank nor the first one of a board text.
fn says_more(line: &[u8]) -> bool {
    match line.iter().position(|byte| *byte != b' ' && *byte != b'\t') {
        None => false,
        Some(at) => !line[at..].starts_with(b"pciboard"),
    }
}

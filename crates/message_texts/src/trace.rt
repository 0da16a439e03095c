use crate::piece::place_of_piece;
use crate::refused::{TOO_LONG, board_part};
use board_model::Board;
use board_parser::{ParseFault, parse};
use board_statements::is_word;
use history_model::Rule;
use pci_command::NoMemory;
use program_pages::{
    Fault, Piece, Teller, find_line, line_at, misread_text, no_events_text, no_trace_text,
    operation_text, unreadable_text,
};
use program_words::Reads;
use std::alloc::Global;
use std::str::from_utf8;
use text_faults::TraceLineFault;
use trace_reader::{Names, read_line};

/// A line of a trace outside its board is at fault.
pub fn tell_trace_line(
    teller: &mut Teller,
    input: &[u8],
    number: u32,
    fault: TraceLineFault,
) -> Result<(), NoMemory> {
    if fault == TraceLineFault::NoEventsLine {
        return tell_no_events(teller, input, number);
    }
    let sentence = Fault::Trace(fault).to_string(teller.alloc())?;
    let Some((_, line)) = line_at(input, number) else {
        return teller.point(number, b"", 0, sentence.as_str());
    };
    match fault {
        TraceLineFault::NoFirstLine => { teller.point(number, line, 0, no_trace_text(input, line)) }
        TraceLineFault::Unreadable => {
            let at = first_unreadable(line);
            teller.point(number, line, at, unreadable_text(line, at))
        }
        TraceLineFault::Unknown => { tell_unknown(teller, input, number, line, sentence.as_str()) }
        TraceLineFault::NoKind | TraceLineFault::WrongCount => {
            teller.point(number, line, place_of_piece(line, 1), sentence.as_str())
        }
        TraceLineFault::Misshapen => {
            teller.point(number, line, first_gap(line), sentence.as_str())
        }
        TraceLineFault::NoEventsLine | TraceLineFault::BehindEnd => {
            teller.point(number, line, 0, sentence.as_str())
        }
    }
}

/// No line is `events`: the first that is but for a carriage return is shown, or else the line behind
/// the last is told of.
fn tell_no_events(teller: &mut Teller, input: &[u8], number: u32) -> Result<(), NoMemory> {
    match find_line(input, b"events\r") {
        Some((number, _)) => teller.point(number, b"events\r", 6, no_events_text(true)),
        None => teller.point(number, b"", 0, no_events_text(false)),
    }
}

fn first_unreadable(line: &[u8]) -> usize {
    line.iter()
        .position(|byte| !(b' '..=b'~').contains(byte))
        .unwrap_or(256)
}

/// A space before the first word or behind another space, or the end of the line.
fn first_gap(line: &[u8]) -> usize {
    let mut spaced = true;
    for (at, byte) in line.iter().enumerate() {
        let is_space = *byte == b' ';
        if spaced && is_space {
            return at;
        }
        spaced = is_space;
    }
    line.len()
}

/// What of an event is at fault: a piece of its line, and what is said of it, if it is something.
#[derive(Drop)]
struct Unknown {
    index: usize,
    text: Option<String>,
}

impl Unknown {
    /// A piece of which nothing is said but the sentence of the fault.
    fn plain(index: usize) -> Unknown {
        Unknown { index, text: None }
    }

    /// A piece that is at fault as this.
    fn of(alloc: Global, index: usize, piece: Piece) -> Result<Unknown, NoMemory> {
        let text = String::from_str(alloc, misread_text(piece))?;
        Ok(Unknown {
            index,
            text: Some(text),
        })
    }
}

fn tell_unknown(
    teller: &mut Teller,
    input: &[u8],
    number: u32,
    line: &[u8],
    sentence: &str,
) -> Result<(), NoMemory> {
    let Unknown { index, text } = first_unknown(teller, input, line)?;
    let at = place_of_piece(line, index);
    match text {
        Some(text) => teller.point(number, line, at, text.as_str()),
        None => teller.point(number, line, at, sentence),
    }
}

/// The first of the operation, the bus, the initiator, the place and the result of an event line
/// that is at fault: a line with this word alone, and words of every board in place of the others,
/// is not read. Of an arrival, the lane or else the bus.
fn first_unknown(teller: &Teller, input: &[u8], line: &[u8]) -> Result<Unknown, NoMemory> {
    let text = board_part(teller.alloc(), input, Reads::Trace(Rule::Tagged))?;
    if text.len() >= TOO_LONG {
        return Ok(Unknown::plain(0));
    }
    match parse(teller.alloc(), text.as_slice()) {
        Ok(board) => unknown_of_line(teller.alloc(), &board, line),
        Err(ParseFault::NoMemory) => Err(NoMemory),
        Err(_) => Ok(Unknown::plain(0)),
    }
}

fn unknown_of_line(alloc: Global, board: &Board, line: &[u8]) -> Result<Unknown, NoMemory> {
    let pieces: Vec<&[u8]> = line.split(|byte| *byte == b' ').collect(alloc)?;
    unknown_piece(alloc, board, pieces.as_slice())
}

/// The words of an act that every kind of it has.
#[derive(Clone, Copy)]
struct ActWords<'a> {
    bus: &'a [u8],
    kind: &'a [u8],
    by: &'a [u8],
    op: &'a [u8],
}

fn unknown_piece(alloc: Global, board: &Board, pieces: &[&[u8]]) -> Result<Unknown, NoMemory> {
    match pieces {
        [word, ..] if is_word(word, b"end") => Ok(Unknown::plain(1)),
        [_, kind, lane, ..] if is_word(kind, b"arrive") => unknown_in_arrival(alloc, board, lane),
        [bus, kind, by, op, rest @ ..] => {
            let words = ActWords { bus, kind, by, op };
            unknown_in_act(alloc, board, words, rest.first().copied())
        }
        _ => Ok(Unknown::plain(0)),
    }
}

fn unknown_in_act(
    alloc: Global,
    board: &Board,
    words: ActWords<'_>,
    place: Option<&[u8]>,
) -> Result<Unknown, NoMemory> {
    let ActWords { bus, kind, by, op } = words;
    if !is_read(alloc, board, &[b"0", b"nobody", b"m", op])? {
        let text = operation_text(alloc, board, op)?;
        return Ok(Unknown { index: 3, text });
    }
    if !is_read(alloc, board, &[bus, b"nobody", b"m", op])? {
        return Unknown::of(alloc, 0, Piece::Bus);
    }
    if !is_read(alloc, board, &[b"0", b"nobody", by, op])? {
        return Unknown::of(alloc, 2, Piece::Lane);
    }
    match place {
        Some(place) if !is_place(alloc, board, kind, op, place)? => {
            unknown_place(alloc, kind, place)
        }
        _ => unknown_result(alloc, kind),
    }
}

/// The place of an act of this kind.
fn unknown_place(alloc: Global, kind: &[u8], place: &[u8]) -> Result<Unknown, NoMemory> {
    if is_word(kind, b"read") && place.starts_with(b"=") {
        return Ok(Unknown::plain(4));
    }
    match kind {
        b"accept" | b"latch" | b"take" => Unknown::of(alloc, 4, Piece::Lane),
        _ => Unknown::of(alloc, 4, Piece::Target),
    }
}

/// What an act of this kind comes to.
fn unknown_result(alloc: Global, kind: &[u8]) -> Result<Unknown, NoMemory> {
    if is_word(kind, b"read") || is_word(kind, b"take") {
        Unknown::of(alloc, 5, Piece::Value)
    } else {
        Ok(Unknown::plain(5))
    }
}

fn unknown_in_arrival(alloc: Global, board: &Board, lane: &[u8]) -> Result<Unknown, NoMemory> {
    for bus in 0..256u16 {
        let bus = format!(in alloc; "{bus}")?;
        if is_read(alloc, board, &[bus.as_bytes(), b"arrive", lane])? {
            let lane = from_utf8(lane).unwrap_or("it");
            let text = format!(in alloc; "{lane} ends at bus {bus}")?;
            return Ok(Unknown {
                index: 0,
                text: Some(text),
            });
        }
    }
    Unknown::of(alloc, 2, Piece::Lane)
}

/// Whether an event of this kind has a place as this word names it.
fn is_place(
    alloc: Global,
    board: &Board,
    kind: &[u8],
    op: &[u8],
    place: &[u8],
) -> Result<bool, NoMemory> {
    match kind {
        b"read" => is_read(alloc, board, &[b"0", b"read", b"m", op, place, b"00000000"]),
        b"accept" | b"latch" | b"take" => {
            is_read(alloc, board, &[b"0", b"accept", b"m", op, place])
        }
        _ => is_read(alloc, board, &[b"0", b"land", b"m", op, place]),
    }
}

/// Whether a line of these words is read.
fn is_read(alloc: Global, board: &Board, words: &[&[u8]]) -> Result<bool, NoMemory> {
    let mut line = Vec::new(alloc);
    for (index, word) in words.iter().enumerate() {
        if index > 0 {
            line.push(b' ')?;
        }
        line.extend_from_slice(word)?;
    }
    let names = Names::new(alloc, board)?;
    Ok(read_line(&names, line.as_slice()).is_ok())
}

ghost use Rattle.std.specs.Prelude.{◌≡◌, map, true, slice_get};
ghost use Rattle.std.specs.Option.{option_map};
ghost use Rattle.std.specs.List.{list_all};
ghost use Rattle.trace_reader.specs.lines.Words.{number_of};
ghost use Rattle.trace_reader.specs.lines.Events.{word_as};
ghost use Rattle.trace_reader.specs.lines.Lines.{is_printing, is_unreadable, begins_end};
ghost use Rattle.trace_reader.specs.lines.Lines.{is_regular, end_line, event_line_by, pieces_line};
ghost use Rattle.trace_reader.specs.lines.Lines.{line_of};

use crate::lines::cut::{fault_of_shape, words_of};
use crate::lines::event::{event_in, has_words_for};
use crate::lines::kind::{EventWord, kind_of};
use crate::lines::names::Names;
use crate::lines::words::number_of;
use history_model::Event;
use text_faults::TraceLineFault;

/// What a line behind `events` says.
#[derive(Clone, Copy, Debug, PartialEq, Eq)]
pub enum TraceLine {
    /// An event.
    Happens(Event),
    /// `end` and the number of events.
    Ends(u32),
}

/// A line of a trace behind `events`, without its newline: an event of the board or the end, and
/// else its first fault.
pub fn read_line(names: &Names, line: &[u8]) -> Result<TraceLine, TraceLineFault>
    ensures { result ≡ line_of names.now line.now }
{
    if is_unreadable(line) {
        return Err(TraceLineFault::Unreadable);
    }
    match words_of(line) {
        Some(words) => read_words(names, words.as_slice()),
        None => Err(fault_of_shape(line)),
    }
}

/// The same of a line by its words, between which single spaces alone stand.
pub(crate) fn read_words(names: &Names, words: &[&[u8]]) -> Result<TraceLine, TraceLineFault>
    requires { is_regular (map (λ word. word.now) words.now) ≡ true }
    ensures { result ≡ pieces_line names.now (map (λ word. word.now) words.now) }
{
    if begins_end(words) {
        return read_end(words);
    }
    match piece(words, 1) {
        Some(word) => read_event(names, words, kind_of(word)),
        None => Err(TraceLineFault::NoKind),
    }
}

fn read_event(
    names: &Names,
    words: &[&[u8]],
    kind: Option<EventWord>,
) -> Result<TraceLine, TraceLineFault>
    requires { is_regular (map (λ word. word.now) words.now) ≡ true }
    ensures { result ≡ event_line_by names.now (map (λ word. word.now) words.now) kind }
{
    let Some(kind) = kind else {
        return Err(TraceLineFault::NoKind);
    };
    if !has_words_for(kind, words) {
        return Err(TraceLineFault::Misshapen);
    }
    match event_in(names, kind, words) {
        Some(event) => Ok(TraceLine::Happens(event)),
        None => Err(TraceLineFault::Unknown),
    }
}

fn read_end(words: &[&[u8]]) -> Result<TraceLine, TraceLineFault>
    requires { is_regular (map (λ word. word.now) words.now) ≡ true }
    ensures { result ≡ end_line (map (λ word. word.now) words.now) }
{
    if words.len() != 2 {
        return Err(TraceLineFault::Misshapen);
    }
    match number_at(words, 1) {
        Some(number) => Ok(TraceLine::Ends(number)),
        None => Err(TraceLineFault::Unknown),
    }
}

fn number_at(words: &[&[u8]], place: usize) -> Option<u32>
    ensures { result ≡ word_as number_of (map (λ word. word.now) words.now) place }
{
    let word = piece(words, place)?;
    number_of(word)
}

/// The piece at a place, from 0.
pub(crate) fn piece<'a>(pieces: &[&'a [u8]], place: usize) -> Option<&'a [u8]>
    ensures { option_map (λ piece. piece.now) result ≡
        slice_get (map (λ piece. piece.now) pieces.now) place }
{
    pieces.get(place).copied()
}

fn begins_end(words: &[&[u8]]) -> bool
    ensures { result ≡ begins_end (map (λ word. word.now) words.now) }
{
    match words {
        [word, _, ..] => *word == b"end".as_slice(),
        _ => false,
    }
}

fn is_unreadable(line: &[u8]) -> bool
    ensures { result ≡ is_unreadable line.now }
{
    line.len() > 256 || !is_printing(line)
}

fn is_printing(line: &[u8]) -> bool
    ensures { result ≡ list_all is_printing line.now }
{
    line.iter().all(|byte| (b' '..=b'~').contains(byte))
}

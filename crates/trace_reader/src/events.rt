ghost use Rattle.std.specs.Prelude.{◌≡◌, ◌+◌, ◌-◌, ◌<◌, ◌≤◌, ◌^◌, ◌↔◌, [], ◌∷◌, length, drop};
ghost use Rattle.std.specs.Prelude.{IfOk, IfSome, IsNone};
ghost use Rattle.board_text.specs.Lines.{lines_of};
ghost use Rattle.trace_reader.specs.lines.Lines.{line_of};
ghost use Rattle.trace_reader.specs.Traces.{nothing_behind, at_end, events_read, Tells};

use crate::TraceFault;
use crate::lines::{Names, TraceLine, read_line, read_words, scan_line};
use board_model::Board;
use board_text::next_line;
use history_model::Event;
use pci_command::List;
use std::alloc::Global;
use text_faults::{OrNoMemory, TraceLineFault};

/// The events of the lines from `from` on, where the first line has this number, up to the `end`
/// line, behind which nothing stands.
pub(crate) fn read_events(
    alloc: Global,
    board: &Board,
    bytes: &[u8],
    from: usize,
    first: u32,
) -> Result<List<Event>, OrNoMemory<TraceFault>>
    requires short { length bytes.now < 2 ^ 31 }
    requires within { from ≤ length bytes.now + 1 }
    requires small { first ≤ from + 1 }
    ensures read { Tells result (events_read board.now first [] (lines_of (drop from bytes.now))) }
    ensures few { IfOk result (λ events. length events < 2 ^ 32) }
{
    match Names::new(alloc, board) {
        Ok(names) => events_named(alloc, &names, bytes, from, first),
        Err(_) => Err(OrNoMemory::NoMemory),
    }
}

/// The same, by the names of the board, which it is lent: so a line that is at fault lets go of
/// the events alone.
fn events_named(
    alloc: Global,
    names: &Names,
    bytes: &[u8],
    from: usize,
    first: u32,
) -> Result<List<Event>, OrNoMemory<TraceFault>>
    requires short { length bytes.now < 2 ^ 31 }
    requires within { from ≤ length bytes.now + 1 }
    requires small { first ≤ from + 1 }
    ensures read { Tells result (events_read names.now first [] (lines_of (drop from bytes.now))) }
    ensures few { IfOk result (λ events. length events < 2 ^ 32) }
{
    let mut events = Vec::new(alloc);
    let mut number = first;
    let mut at = from;
    while let Some((_line, next, read)) = read_line_at(names, bytes, at) {
        match read {
            Ok(TraceLine::Happens(event)) => events.push(event)?,
            Ok(TraceLine::Ends(count)) => {
                let read = List::from_vec(events);
                return ended(bytes, next, number, count, read);
            }
            Err(fault) => {
                return Err(OrNoMemory::Fault(TraceFault::Trace {
                    line: number,
                    fault,
                }));
            }
        }
        number += 1;
        at = next;
    }
    Err(OrNoMemory::Fault(TraceFault::Trace {
        line: number,
        fault: TraceLineFault::WrongCount,
    }))
}

/// The line that begins at `at`, without its newline, the place behind that, and what the line is
/// read as. There is none exactly from the end of the text on.
fn read_line_at<'a>(
    names: &Names,
    bytes: &'a [u8],
    at: usize,
) -> Option<(&'a [u8], usize, Result<TraceLine, TraceLineFault>)>
    ensures end { IsNone result ↔ (length bytes.now ≤ at) }
    ensures line { IfSome result
        (λ found. lines_of (drop at bytes.now) ≡ found.0.now ∷ lines_of (drop found.1 bytes.now)) }
    ensures next { IfSome result (λ found. found.1 ≡ at + length found.0.now + 1) }
    ensures within { IfSome result (λ found. at + length found.0.now ≤ length bytes.now) }
    ensures read { IfSome result (λ found. found.2 ≡ line_of names.now found.0.now) }
{
    if at >= bytes.len() {
        return None;
    }
    let (_before, rest) = bytes.split_at(at);
    match scan_line(rest) {
        Some((words, line)) => {
            let read = read_words(names, words.as_slice());
            Some((line, at + line.len() + 1, read))
        }
        None => cut_line_at(names, bytes, at),
    }
}

/// The same of a line that is found first and then cut.
fn cut_line_at<'a>(
    names: &Names,
    bytes: &'a [u8],
    at: usize,
) -> Option<(&'a [u8], usize, Result<TraceLine, TraceLineFault>)>
    ensures end { IsNone result ↔ (length bytes.now ≤ at) }
    ensures line { IfSome result
        (λ found. lines_of (drop at bytes.now) ≡ found.0.now ∷ lines_of (drop found.1 bytes.now)) }
    ensures next { IfSome result (λ found. found.1 ≡ at + length found.0.now + 1) }
    ensures within { IfSome result (λ found. at + length found.0.now ≤ length bytes.now) }
    ensures read { IfSome result (λ found. found.2 ≡ line_of names.now found.0.now) }
{
    let (line, next) = next_line(bytes, at)?;
    Some((line, next, read_line(names, line)))
}

/// The events at the `end` line of this number, where it counts them right and nothing stands
/// behind it.
fn ended(
    bytes: &[u8],
    behind: usize,
    number: u32,
    count: u32,
    events: List<Event>,
) -> Result<List<Event>, OrNoMemory<TraceFault>>
    requires { number < 2 ^ 32 - 1 }
    ensures read { Tells result (at_end number events count (lines_of (drop behind bytes.now))) }
    ensures few { IfOk result (λ events. length events < 2 ^ 32) }
{
    if count as usize != events.as_slice().len() {
        return Err(OrNoMemory::Fault(TraceFault::Trace {
            line: number,
            fault: TraceLineFault::WrongCount,
        }));
    }
    if next_line(bytes, behind).is_some() {
        return Err(OrNoMemory::Fault(TraceFault::Trace {
            line: number + 1,
            fault: TraceLineFault::BehindEnd,
        }));
    }
    Ok(events)
}

ghost use Rattle.std.specs.Prelude.{◌≡◌, ◌+◌, ◌<◌, ◌≤◌, ◌^◌, length, drop, Some, None, Err, IfOk};
ghost use Rattle.std.specs.Prelude.{IfErr};
ghost use Rattle.board_text.specs.Lines.{lines_of};
ghost use Rattle.trace_reader.specs.Traces.{until_events, trace_read};
ghost use Rattle.trace_reader.specs.Parts.{StartsBehind, Finds, IsWithout};

use crate::TraceFault;
use board_text::next_line;
use text_faults::TraceLineFault;

/// Where the line `events` stands.
#[derive(Clone, Copy, PartialEq, Eq)]
pub(crate) struct EventsLine {
    /// Its first byte.
    pub(crate) start: usize,
    /// The first byte behind its newline, and the number of the line that begins there.
    pub(crate) behind: usize,
    pub(crate) number: u32,
}

/// The place behind the first line, which is `pcitrace 1`.
pub(crate) fn behind_first_line(bytes: &[u8]) -> Result<usize, TraceFault>
    ensures found { IfOk result (StartsBehind bytes.now) }
    ensures within { IfOk result (λ at. at ≤ length bytes.now + 1) }
    ensures fault { IfErr result (λ fault. trace_read bytes.now ≡ Err fault) }
{
    match next_line(bytes, 0) {
        Some((b"pcitrace 1", next)) => Ok(next),
        _ => Err(TraceFault::Trace {
            line: 1,
            fault: TraceLineFault::NoFirstLine,
        }),
    }
}

/// The first line `events` from a place on at which the second line begins.
pub(crate) fn find_events(bytes: &[u8], from: usize) -> Result<EventsLine, TraceFault>
    requires short { length bytes.now < 2 ^ 31 }
    requires within { from ≤ length bytes.now + 1 }
    ensures found { IfOk result (Finds bytes.now from) }
    ensures fault { IfErr result (IsWithout bytes.now from) }
{
    let mut number = 2;
    let mut at = from;
    while let Some((line, next)) = next_line(bytes, at) {
        if line == b"events".as_slice() {
            return Ok(EventsLine {
                start: at,
                behind: next,
                number: number + 1,
            });
        }
        number += 1;
        at = next;
    }
    Err(TraceFault::Trace {
        line: number,
        fault: TraceLineFault::NoEventsLine,
    })
}

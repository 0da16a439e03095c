ghost use Rattle.std.specs.Prelude.{◌≡◌, map, is_some, slice_get};
ghost use Rattle.std.specs.Option.{option_map};
ghost use Rattle.trace_reader.specs.lines.Words.{value_of, bus_in, lane_in, by_in, target_in};
ghost use Rattle.trace_reader.specs.lines.Words.{op_in, outcome_in, phases_in};
ghost use Rattle.trace_reader.specs.lines.Events.{mark_of, mark_at_end, has_words_for, word_as};
ghost use Rattle.trace_reader.specs.lines.Events.{at_target, reader_in, at_reader, at_lane};
ghost use Rattle.trace_reader.specs.lines.Events.{done_by, act_in, arrival_in, event_in};

use crate::lines::kind::EventWord;
use crate::lines::line::piece;
use crate::lines::names::Names;
use crate::lines::operation::op_in;
use crate::lines::words::{
    begins_header, bus_in, by_in, header_in, lane_in, outcome_in, phases_in, target_in, value_of,
};
use board_model::Place;
use history_model::{Event, Mark, Step};

/// Whether the line has as many words as its kind, and an arrival no fourth one but a mark.
pub(crate) fn has_words_for(kind: EventWord, line: &[&[u8]]) -> bool
    ensures { result ≡ has_words_for kind (map (λ piece. piece.now) line.now) }
{
    let words = line.len();
    match kind {
        EventWord::Land
        | EventWord::Accept
        | EventWord::Latch
        | EventWord::Stall
        | EventWord::Abort => words == 5,
        EventWord::Part | EventWord::Read | EventWord::Take => words == 6,
        EventWord::Nobody => words == 4,
        EventWord::Arrive => 3 <= words && words <= 4 && mark_at_end(line).is_some(),
    }
}

/// The mark of an arrival: no word, or one.
fn mark_at_end(line: &[&[u8]]) -> Option<Mark>
    ensures { result ≡ mark_at_end (slice_get (map (λ piece. piece.now) line.now) 3) }
{
    match piece(line, 3) {
        None => Some(Mark::Plain),
        Some(b"discard") => Some(Mark::Discard),
        Some(b"drop") => Some(Mark::Drop),
        Some(_) => None,
    }
}

/// The event of a line of this kind.
pub(crate) fn event_in(names: &Names, kind: EventWord, line: &[&[u8]]) -> Option<Event>
    ensures { result ≡ event_in names.now kind (map (λ piece. piece.now) line.now) }
{
    match kind {
        EventWord::Arrive => arrival_in(names, line),
        _ => act_in(names, kind, line),
    }
}

fn act_in(names: &Names, kind: EventWord, line: &[&[u8]]) -> Option<Event>
    ensures { result ≡ act_in names.now kind (map (λ piece. piece.now) line.now) }
{
    let bus = bus_in(names, piece(line, 0)?)?;
    let by = by_in(names, piece(line, 2)?)?;
    let op = op_in(names, piece(line, 3)?)?;
    let (step, place) = done_by(names, kind, line)?;
    Some(Event::Act {
        bus,
        by,
        op,
        step,
        place,
    })
}

fn arrival_in(names: &Names, line: &[&[u8]]) -> Option<Event>
    ensures { result ≡ arrival_in names.now (map (λ piece. piece.now) line.now) }
{
    let bus = bus_in(names, piece(line, 0)?)?;
    let lane = lane_in(names, piece(line, 2)?)?;
    let mark = mark_at_end(line)?;
    if names.end_of(lane) == bus {
        Some(Event::Arrive { lane, mark })
    } else {
        None
    }
}

/// What an act did, and who claimed it.
fn done_by(names: &Names, kind: EventWord, line: &[&[u8]]) -> Option<(Step, Place)>
    ensures { result ≡ done_by names.now kind (map (λ piece. piece.now) line.now) }
{
    match kind {
        EventWord::Land => at_target(names, line, Step::Land),
        EventWord::Part => at_target(names, line, Step::Part(phases_in(piece(line, 5)?)?)),
        EventWord::Read => at_reader(names, line, Step::Read(value_of(piece(line, 5)?)?)),
        EventWord::Accept => at_lane(names, line, Step::Accept),
        EventWord::Latch => at_lane(names, line, Step::Latch),
        EventWord::Take => at_lane(names, line, Step::Take(outcome_in(piece(line, 5)?)?)),
        EventWord::Stall => at_target(names, line, Step::Stall),
        EventWord::Nobody => Some((Step::MasterAbort, Place::Nobody)),
        EventWord::Abort => at_target(names, line, Step::TargetAbort),
        EventWord::Arrive => None,
    }
}

fn at_target(names: &Names, line: &[&[u8]], step: Step) -> Option<(Step, Place)>
    ensures { result ≡ at_target names.now (map (λ piece. piece.now) line.now) step }
{
    let target = target_in(names, piece(line, 4)?)?;
    Some((step, Place::Target(target)))
}

fn at_reader(names: &Names, line: &[&[u8]], step: Step) -> Option<(Step, Place)>
    ensures { result ≡ at_reader names.now (map (λ piece. piece.now) line.now) step }
{
    let place = reader_in(names, piece(line, 4)?)?;
    Some((step, place))
}

/// Who gave a dword: the header of a bridge, or a target.
fn reader_in(names: &Names, word: &[u8]) -> Option<Place>
    ensures { result ≡ reader_in names.now word.now }
{
    if begins_header(word) {
        header_in(names, word).map(Place::Header)
    } else {
        target_in(names, word).map(Place::Target)
    }
}

fn at_lane(names: &Names, line: &[&[u8]], step: Step) -> Option<(Step, Place)>
    ensures { result ≡ at_lane names.now (map (λ piece. piece.now) line.now) step }
{
    let lane = lane_in(names, piece(line, 4)?)?;
    Some((step, Place::Lane(lane)))
}

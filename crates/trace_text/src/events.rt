ghost use Rattle.std.specs.Prelude.{◌≡◌, [], ◌∷◌, ◌++◌, ◌==◌, OnOk, string_bytes};
ghost use Rattle.std.specs.Fmt.{decimal};
ghost use Rattle.board_printer.specs.Lines.{spaced, line_text};
ghost use Rattle.trace_text.specs.Words.{by_word, master_name, target_name};
ghost use Rattle.trace_text.specs.Words.{names_poll, op_word, place_words};
ghost use Rattle.trace_text.specs.Events.{step_word, result_words, mark_words};
ghost use Rattle.trace_text.specs.Events.{arrival_line, event_line};

use crate::digits::{push_decimal, push_word};
use crate::words::{push_by, push_lane, push_outcome};
use board_model::{Board, Lane, Op, Place, end_of};
use history_model::{By, Event, Mark, Step};
use pci_command::OpId;
use std::alloc::AllocError;

/// The line of the event, behind a text.
pub(crate) fn push_event(text: &mut Vec<u8>, board: &Board, event: &Event) -> Result<(), AllocError>
    ensures { OnOk result
        (text.new.items ≡ text.old.items ++ line_text (event_line board.now event.now)) }
{
    match event {
        Event::Act {
            bus,
            by,
            op,
            step,
            place,
        } => {
            push_start(text, *bus, *step, *by)?;
            push_operation(text, board, op)?;
            push_end(text, board, *place, *step)
        }
        Event::Arrive { lane, mark } => push_arrival(text, board, *lane, *mark),
    }
}

/// `BUS STEP BY ` and the space before the operation.
fn push_start(text: &mut Vec<u8>, bus: u8, step: Step, by: By) -> Result<(), AllocError>
    ensures { OnOk result (text.new.items ≡ text.old.items
        ++ (decimal bus ++ 32 ∷ (step_word step ++ 32 ∷ (by_word by ++ 32 ∷ [])))) }
{
    push_decimal(text, u32::from(bus))?;
    text.extend_from_slice(spaced_step(step))?;
    push_by(text, by)
}

/// `NAME.INDEX`, for a poll `NAME.INDEX.TRY`.
fn push_operation(text: &mut Vec<u8>, board: &Board, op: &OpId) -> Result<(), AllocError>
    ensures { OnOk result (text.new.items ≡ text.old.items ++ op_word board.now op.now) }
{
    text.extend_from_slice(master_name(board, op.master).as_bytes())?;
    text.push(b'.')?;
    push_decimal(text, u32::from(op.index))?;
    if names_poll(board, op) {
        text.push(b'.')?;
        push_decimal(text, op.attempt)
    } else {
        Ok(())
    }
}

/// ` PLACE RESULT` and the newline.
fn push_end(text: &mut Vec<u8>, board: &Board, place: Place, step: Step) -> Result<(), AllocError>
    ensures { OnOk result (text.new.items
        ≡ text.old.items ++ spaced (place_words board.now place ++ result_words step) (10 ∷ [])) }
{
    push_place(text, board, place)?;
    push_result(text, step)?;
    text.push(b'\n')?;
    Ok(())
}

fn push_arrival(text: &mut Vec<u8>, board: &Board, lane: Lane, mark: Mark) -> Result<(), AllocError>
    ensures { OnOk result
        (text.new.items ≡ text.old.items ++ line_text (arrival_line board.now lane mark)) }
{
    push_decimal(text, u32::from(end_of(board, lane)))?;
    text.extend_from_slice(b" arrive ")?;
    push_lane(text, lane)?;
    text.extend_from_slice(end_with(mark))
}

/// The operation as `NAME.INDEX`, for a poll `NAME.INDEX.TRY`, behind a text. The name of a master
/// that the board does not have is empty.
pub fn print_operation(text: &mut String, board: &Board, op: &OpId) -> Result<(), AllocError>
    ensures { OnOk result
        (string_bytes text.new ≡ string_bytes text.old ++ op_word board.now op.now) }
{
    let name = master_name(board, op.master);
    if names_poll(board, op) {
        write!(text, "{name}.{}.{}", op.index, op.attempt)
    } else {
        write!(text, "{name}.{}", op.index)
    }
}

/// The name of the master at this place of the board, empty where there is none.
pub fn master_name(board: &Board, index: u16) -> &str
    ensures { result.now ≡ master_name board.now index }
{
    let masters = board.masters.as_slice();
    match masters.get(usize::from(index)) {
        Some(master) => master.name.as_str(),
        None => "",
    }
}

/// The name of the target at this place of the board, empty where there is none.
pub fn target_name(board: &Board, index: u16) -> &str
    ensures { result.now ≡ target_name board.now index }
{
    let targets = board.targets.as_slice();
    match targets.get(usize::from(index)) {
        Some(target) => target.name.as_str(),
        None => "",
    }
}

fn names_poll(board: &Board, op: &OpId) -> bool
    ensures { result ≡ names_poll board.now op.now }
{
    let masters = board.masters.as_slice();
    let Some(master) = masters.get(usize::from(op.master)) else {
        return false;
    };
    let ops = master.ops.as_slice();
    matches!(ops.get(usize::from(op.index)), Some(Op::Poll { .. }))
}

/// The word of a step in a trace.
pub fn step_word(step: Step) -> &'static str
    ensures { result.now ≡ step_word step }
{
    match step {
        Step::Land => "land",
        Step::Part(_) => "part",
        Step::Read(_) => "read",
        Step::Accept => "accept",
        Step::Latch => "latch",
        Step::Take(_) => "take",
        Step::Stall => "stall",
        Step::MasterAbort => "nobody",
        Step::TargetAbort => "tabort",
    }
}

fn push_place(text: &mut Vec<u8>, board: &Board, place: Place) -> Result<(), AllocError>
    ensures { OnOk result
        (text.new.items ≡ text.old.items ++ spaced (place_words board.now place) []) }
{
    match place {
        Place::Target(index) => {
            text.push(b' ')?;
            text.extend_from_slice(target_name(board, index).as_bytes())
        }
        Place::Header(bus) => {
            text.extend_from_slice(b" =")?;
            push_decimal(text, u32::from(bus))
        }
        Place::Lane(lane) => {
            text.push(b' ')?;
            push_lane(text, lane)
        }
        Place::Nobody => Ok(()),
    }
}

fn push_result(text: &mut Vec<u8>, step: Step) -> Result<(), AllocError>
    ensures { OnOk result (text.new.items ≡ text.old.items ++ spaced (result_words step) []) }
{
    match step {
        Step::Part(phases) => {
            text.push(b' ')?;
            push_decimal(text, u32::from(phases))
        }
        Step::Read(value) => {
            text.push(b' ')?;
            push_word(text, value)
        }
        Step::Take(outcome) => {
            text.push(b' ')?;
            push_outcome(text, outcome)
        }
        Step::Land
        | Step::Accept
        | Step::Latch
        | Step::Stall
        | Step::MasterAbort
        | Step::TargetAbort => Ok(()),
    }
}

/// The word of a step, between spaces.
fn spaced_step(step: Step) -> &'static [u8]
    ensures { result.now ≡ 32 ∷ (step_word step ++ 32 ∷ []) }
{
    match step {
        Step::Land => b" land ",
        Step::Part(_) => b" part ",
        Step::Read(_) => b" read ",
        Step::Accept => b" accept ",
        Step::Latch => b" latch ",
        Step::Take(_) => b" take ",
        Step::Stall => b" stall ",
        Step::MasterAbort => b" nobody ",
        Step::TargetAbort => b" tabort ",
    }
}

/// The mark behind an arrival, and the newline.
fn end_with(mark: Mark) -> &'static [u8]
    ensures { result.now ≡ spaced (mark_words mark) (10 ∷ []) }
{
    match mark {
        Mark::Plain => b"\n",
        Mark::Discard => b" discard\n",
        Mark::Drop => b" drop\n",
    }
}

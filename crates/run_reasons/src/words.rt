//! The words of a message for operations, items and events, each put behind a text.
use board_model::{Board, Place, end_of};
use history_model::{Carried, Event, Mark, Step};
use machine_steps::reads;
use pci_command::{NoMemory, OpId, Outcome};
use trace_text::{ByWord, LaneWord, has_line, print_operation, step_word, target_name};

/// What an item is in the ordering table: its name, and the row and column there.
#[derive(Clone, Copy)]
pub(crate) struct KindWords {
    pub(crate) name: &'static str,
    pub(crate) row: &'static str,
}

/// The words for what an item is in the ordering table.
pub(crate) fn kind_words(board: &Board, item: Carried) -> KindWords {
    let (name, row) = match item {
        Carried::Ask { op, .. } if reads(board, op) => ("delayed read request", "DRR"),
        Carried::Ask { .. } => ("delayed write request", "DWR"),
        Carried::Done { op, .. } if reads(board, op) => ("delayed read completion", "DRC"),
        Carried::Done { .. } => ("delayed write completion", "DWC"),
        Carried::Post { .. } | Carried::Room | Carried::Gone { .. } => ("posted write", "PMW"),
    };
    KindWords { name, row }
}

/// An operation as a trace names it.
pub(crate) fn put_op(text: &mut String, board: &Board, op: OpId) -> Result<(), NoMemory> {
    print_operation(text, board, &op)?;
    Ok(())
}

/// The operation that an item is of, if it is of one.
pub(crate) fn op_of_item(item: Carried) -> Option<OpId> {
    match item {
        Carried::Post { op } | Carried::Ask { op, .. } | Carried::Done { op, .. } => Some(op),
        Carried::Room | Carried::Gone { .. } => None,
    }
}

/// An item: its operation and what it is.
pub(crate) fn put_item(text: &mut String, board: &Board, item: Carried) -> Result<(), NoMemory> {
    match op_of_item(item) {
        Some(op) => {
            put_op(text, board, op)?;
            write!(text, " ({})", kind_words(board, item).name)?;
        }
        None => text.push_str(word_of_no_operation(item))?,
    }
    Ok(())
}

/// The operation that an item is of, or what it is.
pub(crate) fn put_item_op(text: &mut String, board: &Board, item: Carried) -> Result<(), NoMemory> {
    match op_of_item(item) {
        Some(op) => put_op(text, board, op),
        None => put_item(text, board, item),
    }
}

fn word_of_no_operation(item: Carried) -> &'static str {
    match item {
        Carried::Room => "a credit for a posted write",
        _ => "the word that a request was dropped",
    }
}

/// Since which event something is so; nothing where that is not known.
pub(crate) fn put_since(text: &mut String, since: Option<usize>) -> Result<(), NoMemory> {
    if let Some(event) = since {
        write!(text, " since event {event}")?;
    }
    Ok(())
}

/// A number of things: of one of them without its last letter.
pub(crate) fn put_counted(text: &mut String, count: u8, things: &str) -> Result<(), NoMemory> {
    match things.strip_suffix("s") {
        Some(thing) if count == 1 => write!(text, "1 {thing}")?,
        _ => write!(text, "{count} {things}")?,
    }
    Ok(())
}

/// The line of an event, as a trace has it; nothing where the board has not what it names.
pub(crate) fn put_line(text: &mut String, board: &Board, event: &Event) -> Result<(), NoMemory> {
    if !has_line(board, event) {
        return Ok(());
    }
    match *event {
        Event::Arrive { lane, mark } => {
            let bus = end_of(board, lane);
            let mark = mark_word(mark);
            write!(text, "{bus} arrive {}{mark}", LaneWord(lane))?;
        }
        Event::Act {
            bus,
            by,
            op,
            step,
            place,
        } => {
            write!(text, "{bus} {} {} ", step_word(step), ByWord(by))?;
            put_op(text, board, op)?;
            put_place(text, board, place)?;
            put_result(text, step)?;
        }
    }
    Ok(())
}

fn mark_word(mark: Mark) -> &'static str {
    match mark {
        Mark::Plain => "",
        Mark::Discard => " discard",
        Mark::Drop => " drop",
    }
}

fn put_place(text: &mut String, board: &Board, place: Place) -> Result<(), NoMemory> {
    match place {
        Place::Target(target) => write!(text, " {}", target_name(board, target))?,
        Place::Header(bus) => write!(text, " ={bus}")?,
        Place::Lane(lane) => write!(text, " {}", LaneWord(lane))?,
        Place::Nobody => {}
    }
    Ok(())
}

fn put_result(text: &mut String, step: Step) -> Result<(), NoMemory> {
    match step {
        Step::Part(phases) => write!(text, " {phases}")?,
        Step::Read(value) | Step::Take(Outcome::Value(value)) => write!(text, " {value:08x}")?,
        Step::Take(Outcome::Written) => text.push_str(" ok")?,
        Step::Take(Outcome::Aborted) => text.push_str(" abort")?,
        _ => {}
    }
    Ok(())
}

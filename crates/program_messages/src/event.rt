use history_model::{Rule, Why};
use message_texts::{TOO_LONG, place_of_piece};
use pci_command::NoMemory;
use program_input::{TreeTrace, read_tree_trace};
use program_pages::{Teller, find_line, line_at};
use program_status::Status;
use program_words::Reads;
use run_reasons::{Findings, reasons, reasons_filled};

/// How many sentences are told of what is left.
const MOST_LEFT: usize = 8;

/// The first event of a trace that is not allowed, by its line, and what tells why; or what is left
/// where all are allowed.
pub(crate) fn tell_event(teller: &mut Teller, input: &[u8], reads: Reads) -> Result<(), NoMemory> {
    if input.len() >= TOO_LONG {
        return Ok(());
    }
    match read_tree_trace(teller.alloc(), input) {
        Ok(read) => tell_read(teller, input, &read, reads),
        Err(Status::NoMemory) => Err(NoMemory),
        Err(_) => Ok(()),
    }
}

fn tell_read(
    teller: &mut Teller,
    input: &[u8],
    read: &TreeTrace,
    reads: Reads,
) -> Result<(), NoMemory> {
    let events = read.events.as_slice();
    let told = match reads {
        Reads::Filled => reasons_filled(teller.alloc(), &read.tree, events)?,
        Reads::Trace(rule) => reasons(teller.alloc(), &read.tree, events, rule)?,
        _ => reasons(teller.alloc(), &read.tree, events, Rule::Tagged)?,
    };
    match told {
        Findings::Refused { place, why, reason } => {
            point_at(teller, input, place, why, reason.text.as_str())?;
            tell_notes(teller, reason.notes.as_slice())
        }
        Findings::Left(notes) => tell_left(teller, notes.as_slice()),
    }
}

fn tell_notes(teller: &mut Teller, notes: &[String]) -> Result<(), NoMemory> {
    for note in notes {
        teller.note(note.as_str())?;
    }
    Ok(())
}

/// What is left of a run that has not ended, of the first eight.
fn tell_left(teller: &mut Teller, notes: &[String]) -> Result<(), NoMemory> {
    for note in notes.iter().take(MOST_LEFT) {
        teller.note(note.as_str())?;
    }
    if notes.len() > MOST_LEFT {
        teller.note("..")?;
    }
    teller.note("pcitree finish FILE goes on with it")
}

/// The line of the event at this place, and a sentence.
fn point_at(
    teller: &mut Teller,
    input: &[u8],
    place: usize,
    why: Why,
    text: &str,
) -> Result<(), NoMemory> {
    let Some((events, _)) = find_line(input, b"events") else {
        return Ok(());
    };
    let Ok(place) = u32::try_from(place) else {
        return Ok(());
    };
    let number = events.saturating_add(place).saturating_add(1);
    let Some((_, line)) = line_at(input, number) else {
        return Ok(());
    };
    let piece = match why {
        Why::NotPresented | Why::GetsRetry | Why::MarkedOtherwise => 3,
        Why::AnsweredOtherwise => 1,
        Why::NothingInFlight => 2,
    };
    teller.point(number, line, place_of_piece(line, piece), text)
}

use board_model::Board;
use observe_told::{Counts, LineWord, Log, Note, Unseen, Who};
use pci_command::{NoMemory, OpId};
use std::alloc::{AllocError, Global};
use trace_text::{LaneWord, master_name, print_operation};

/// What was done and cannot be seen in the trace: lines of comments.
pub fn comments(
    alloc: Global,
    log: &Log,
    board: &Board,
    unseen: &Unseen,
) -> Result<String, NoMemory> {
    let mut text = String::new(alloc);
    let Counts {
        lines,
        acts,
        fruitless,
    } = unseen.counts;
    writeln!(
        text,
        "# {lines} lines, {acts} acts, {fruitless} Retries without effect"
    )?;
    for note in unseen.notes.as_slice() {
        add_note(alloc, &mut text, log, board, *note)?;
    }
    Ok(text)
}

fn add_note(
    alloc: Global,
    text: &mut String,
    log: &Log,
    board: &Board,
    note: Note,
) -> Result<(), NoMemory> {
    match note {
        Note::Discarded { bridge, op, line } => {
            let op = op_word(alloc, board, &op)?;
            add_discarded(text, bridge, op.as_str(), log.word_of(line))?;
        }
        Note::Raised {
            bridge,
            posted,
            given,
        } => add_raised(text, bridge, posted, given)?,
        Note::NotLookedAt { op, count } => {
            let op = op_word(alloc, board, &op)?;
            add_not_looked_at(text, op.as_str(), count)?;
        }
        Note::NotEnded { op, line, asked } => {
            let what = match op {
                Some(op) => op_word(alloc, board, &op)?,
                None => request_word(alloc, log, board, line)?,
            };
            add_not_ended(text, what.as_str(), log.word_of(line), asked)?;
        }
    }
    Ok(())
}

fn add_discarded(
    text: &mut String,
    bridge: u8,
    op: &str,
    line: LineWord,
) -> Result<(), AllocError> {
    writeln!(
        text,
        "# bridge {bridge}: the completion of {op}, read at {line}, was discarded"
    )
}

fn add_raised(text: &mut String, bridge: u8, posted: u8, given: u8) -> Result<(), AllocError> {
    writeln!(
        text,
        "# bridge {bridge}: posted {posted} for {given}: bursts that were cut"
    )
}

fn add_not_looked_at(text: &mut String, op: &str, count: u32) -> Result<(), AllocError> {
    writeln!(
        text,
        "# {op}: {count} further dwords of a read were not looked at"
    )
}

fn add_not_ended(
    text: &mut String,
    what: &str,
    line: LineWord,
    asked: u32,
) -> Result<(), AllocError> {
    writeln!(
        text,
        "# {what} was not ended: asked {asked} times since {line}"
    )
}

/// A request that has no operation, by who asked.
fn request_word(alloc: Global, log: &Log, board: &Board, line: u32) -> Result<String, NoMemory> {
    match log.lines.as_slice().get(line as usize).map(|seen| seen.who) {
        Some(Who::Master(master)) => {
            let name = master_name(board, master);
            Ok(format!(in alloc; "a request of {name}")?)
        }
        Some(Who::Lane(lane)) => Ok(format!(in alloc; "a request of {}", LaneWord(lane))?),
        None => Ok(String::from_str(alloc, "a request")?),
    }
}

fn op_word(alloc: Global, board: &Board, op: &OpId) -> Result<String, NoMemory> {
    let mut word = String::new(alloc);
    print_operation(&mut word, board, op)?;
    Ok(word)
}

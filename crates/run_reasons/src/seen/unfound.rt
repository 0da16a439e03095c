use crate::reason::Reason;
use board_model::Board;
use board_printer::{Address, DataWord};
use observe_told::{Addressed, HeldPhase, Log, Seen, Unfound, Who};
use pci_command::{NoMemory, Phase};
use std::alloc::Global;
use trace_text::{LaneWord, master_name};

/// Why no acts are named, where that is a verdict on a bridge.
pub(crate) fn reason_of_none(
    alloc: Global,
    log: &Log,
    board: &Board,
    unfound: Unfound,
) -> Result<Option<Reason>, NoMemory> {
    let mut reason = Reason::new(alloc);
    if put_unfound(&mut reason.text, log, board, unfound)? {
        Ok(Some(reason))
    } else {
        Ok(None)
    }
}

/// Whether it is a verdict on a bridge, which stands behind the text then.
fn put_unfound(
    text: &mut String,
    log: &Log,
    board: &Board,
    unfound: Unfound,
) -> Result<bool, NoMemory> {
    match unfound {
        Unfound::NotHeld {
            line,
            bridge,
            phase,
            oldest,
        } => {
            write!(text, "bridge {bridge} writes ")?;
            put_write(text, log, HeldPhase { line, phase })?;
            put_oldest(text, log, board, oldest)?;
            Ok(true)
        }
        Unfound::NotAsked { bridge, .. } => {
            write!(text, "nobody is asking bridge {bridge} for it at that time")?;
            Ok(true)
        }
        Unfound::NoMemory => Err(NoMemory),
        _ => Ok(false),
    }
}

/// The oldest data phase that a bridge holds, who posted it and when.
fn put_oldest(
    text: &mut String,
    log: &Log,
    board: &Board,
    oldest: Option<HeldPhase>,
) -> Result<(), NoMemory> {
    let Some(held) = oldest else {
        text.push_str(": it holds no write")?;
        return Ok(());
    };
    text.push_str(": the oldest write that it holds is ")?;
    put_write(text, log, held)?;
    if let Some(seen) = log.lines.as_slice().get(held.line as usize) {
        text.push_str(", posted by ")?;
        put_who(text, board, seen)?;
        write!(text, " at {}", log.word_of(held.line))?;
    }
    Ok(())
}

/// A data phase of a line and its address: `091b0115 to 10000184`.
fn put_write(text: &mut String, log: &Log, held: HeldPhase) -> Result<(), NoMemory> {
    let seen = log.lines.as_slice().get(held.line as usize);
    let (phase, address) = match seen {
        Some(seen) => (
            phase_of(log, seen, held.phase),
            address_of(seen, held.phase),
        ),
        None => (Phase::default(), 0),
    };
    write!(text, "{} to {}", DataWord(phase), Address(address))?;
    Ok(())
}

fn phase_of(log: &Log, seen: &Seen, phase: u32) -> Phase {
    log.phases_of(seen)
        .get(phase as usize)
        .copied()
        .unwrap_or_default()
}

fn address_of(seen: &Seen, phase: u32) -> u64 {
    match seen.address {
        Addressed::Byte(address) => address.saturating_add(4 * u64::from(phase)),
        _ => 0,
    }
}

/// Who drove the line: a master's name, or a lane.
fn put_who(text: &mut String, board: &Board, seen: &Seen) -> Result<(), NoMemory> {
    match seen.who {
        Who::Master(master) => text.push_str(master_name(board, master))?,
        Who::Lane(lane) => write!(text, "{}", LaneWord(lane))?,
    }
    Ok(())
}

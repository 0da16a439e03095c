ghost use Rattle.std.specs.Prelude.{IfOk, IsTrue};
ghost use Rattle.std.specs.List.{list_all};
ghost use Rattle.program_pages.specs.shown.Shown.{is_shown};

use message_texts::{point_at_command, tell_seen};
use observe_told::RefusedLog;
use pci_command::NoMemory;
use program_pages::{Fault, Message, Teller};
use program_status::Status;
use run_reasons::{Reason, reason_of_log};
use std::alloc::Global;

/// What a status says of a log that is refused: the command of the line, and why.
pub fn message_of_log(
    alloc: Global,
    name: &str,
    input: &[u8],
    status: &Status,
    refused: Option<RefusedLog>,
) -> Result<Message, NoMemory>
    ensures { IfOk result (λ message. IsTrue (list_all is_shown message)) }
{
    let mut teller = Teller::new(alloc, name, Fault::of(status));
    if let Status::NotTold { line, .. } | Status::ToldTo { line, .. } = *status {
        tell_refused(&mut teller, input, line, refused)?;
    }
    Ok(teller.into_message())
}

fn tell_refused(
    teller: &mut Teller,
    input: &[u8],
    number: u32,
    refused: Option<RefusedLog>,
) -> Result<(), NoMemory> {
    let reason = match refused {
        Some(refused) => reason_of_log(teller.alloc(), refused)?,
        None => None,
    };
    match reason {
        Some(reason) => tell_reason(teller, input, number, &reason)?,
        None => tell_seen(teller, input, number)?,
    }
    teller.more()
}

fn tell_reason(
    teller: &mut Teller,
    input: &[u8],
    number: u32,
    reason: &Reason,
) -> Result<(), NoMemory> {
    point_at_command(teller, input, number, reason.text.as_str())?;
    for note in &reason.notes {
        teller.note(note.as_str())?;
    }
    Ok(())
}

ghost use Rattle.std.specs.Prelude.{◌≡◌, [], IfOk, IsTrue};
ghost use Rattle.std.specs.List.{list_all};
ghost use Rattle.program_pages.specs.shown.Shown.{is_shown};
ghost use Rattle.program_messages.specs.Quiet.{IsQuiet};

use crate::event::tell_event;
use message_texts::{tell_board, tell_machine_line, tell_seen, tell_trace_line};
use pci_command::NoMemory;
use program_pages::{Fault, Message, Teller};
use program_status::Status;
use program_words::Reads;
use std::alloc::Global;

/// What a status says of an input, behind its first line: the lines at fault and why. The name is
/// that of the input, and it was read so. Nothing is said of a status that does not tell of the
/// input.
pub fn message(
    alloc: Global,
    name: &str,
    input: &[u8],
    status: &Status,
    reads: Reads,
) -> Result<Message, NoMemory>
    ensures printing { IfOk result (λ message. IsTrue (list_all is_shown message)) }
    ensures quiet { IsQuiet status.now → IfOk result (λ message. message ≡ []) }
{
    match status {
        Status::BadBoard { .. }
        | Status::BadTrace { .. }
        | Status::BadMachine { .. }
        | Status::NotRun { .. }
        | Status::DrawnTo { .. }
        | Status::Incomplete { .. }
        | Status::BadLog { .. }
        | Status::NotTold { .. }
        | Status::TooMuch { .. }
        | Status::ToldTo { .. } => told(alloc, name, input, status, reads),
        _ => Ok(Message::new(alloc)),
    }
}

fn told(
    alloc: Global,
    name: &str,
    input: &[u8],
    status: &Status,
    reads: Reads,
) -> Result<Message, NoMemory>
    ensures { IfOk result (λ message. IsTrue (list_all is_shown message)) }
{
    let mut teller = Teller::new(alloc, name, Fault::of(status));
    tell(&mut teller, input, status, reads)?;
    teller.more()?;
    Ok(teller.into_message())
}

/// The lines at fault, and why.
fn tell(teller: &mut Teller, input: &[u8], status: &Status, reads: Reads) -> Result<(), NoMemory> {
    match *status {
        Status::BadBoard { line, fault } => tell_board(teller, input, reads, status, line, fault),
        Status::BadTrace { line, fault } => tell_trace_line(teller, input, line, fault),
        Status::BadMachine { line, fault } => tell_machine_line(teller, input, line, fault),
        Status::NotRun { .. } | Status::DrawnTo { .. } | Status::Incomplete { .. } => {
            tell_event(teller, input, reads)
        }
        Status::BadLog { line, .. }
        | Status::NotTold { line, .. }
        | Status::TooMuch { line, .. }
        | Status::ToldTo { line, .. } => tell_seen(teller, input, line),
        _ => Ok(()),
    }
}

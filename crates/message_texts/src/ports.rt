ghost use Rattle.std.specs.Prelude.{IfOk, IsTrue};
ghost use Rattle.std.specs.List.{list_all};
ghost use Rattle.program_pages.specs.shown.Shown.{is_shown};

use crate::notes::about;
use pci_command::NoMemory;
use program_pages::Message;
use std::alloc::Global;
use std::io::ErrorKind;

/// Why a file was not read, as the system tells it.
pub fn unread(alloc: Global, name: &str, reason: Option<ErrorKind>) -> Result<Message, NoMemory>
    ensures printing { IfOk result (λ message. IsTrue (list_all is_shown message)) }
{
    match reason {
        Some(ErrorKind::NotFound) => about(alloc, name, "no such file"),
        Some(kind) => as_told(alloc, name, kind),
        None => about(alloc, name, "it was opened, and not read to its end"),
    }
}

/// Why standard output took no more, as the system tells it.
pub fn unwritten(alloc: Global, reason: Option<ErrorKind>) -> Result<Message, NoMemory>
    ensures printing { IfOk result (λ message. IsTrue (list_all is_shown message)) }
{
    let name = "standard output";
    match reason {
        Some(ErrorKind::StorageFull) => about(alloc, name, "no space left"),
        Some(ErrorKind::BrokenPipe) => about(alloc, name, "closed by its reader"),
        Some(kind) => as_told(alloc, name, kind),
        None => about(alloc, name, "it took nothing"),
    }
}

fn as_told(alloc: Global, name: &str, kind: ErrorKind) -> Result<Message, NoMemory>
    ensures printing { IfOk result (λ message. IsTrue (list_all is_shown message)) }
{
    let reason = kind.to_string(alloc)?;
    about(alloc, name, reason.as_str())
}
